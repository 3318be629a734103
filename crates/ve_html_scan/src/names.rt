//! Names of elements that are read in a way of their own.

ghost use Rattle.std.specs.Prelude.{◌≡◌, bytes_eq};
ghost use Rattle.model_spelling.specs.Grammar.{is_plaintext, name_same};

#[tactic(auto, unfolding(model_spelling::specs::Grammar::name_same))]
pub fn is_name(name: &[u8], expected: &[u8]) -> bool
    ensures { result ≡ name_same expected.now name.now }
{
    expected == name
}

#[tactic(auto, unfolding(model_spelling::specs::Grammar::is_plaintext))]
pub fn is_plaintext_name(name: &[u8]) -> bool
    ensures { result ≡ is_plaintext name.now }
{
    is_name(name, b"plaintext")
}
