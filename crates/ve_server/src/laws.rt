// Laws of the server: each is the contract of a function that does nothing.
ghost use Rattle.ve_server.specs.Laws.{TurnsFeed, TurnsServe, TurnsTake};

/// `Server::serve` is the server's turn in a session, and `Server::feed` a site's. The feed that it
/// hands out is the one by which that site becomes what it is after its turn.
pub fn serving_is_turns()
    ensures serve { TurnsServe }
    ensures feed { TurnsFeed }
    ensures site { TurnsTake }
{}
