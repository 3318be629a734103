// The laws of pages that are written with nodes kept in them, each the contract of a function that
// does nothing.
ghost use Rattle.model_kept_law.specs.KeptBack.{KeptIsReadBack, ReadableIsReadBack};
ghost use Rattle.model_kept_law.specs.KeptBytes.{BytesAreFirst, KeptBlockStands, KeptLeafStands, MovedKeepsBytes, RestStands, SiblingsJoin};

/// A list is written with nodes kept in it. Where that page opens, and the list is of the form that
/// reads back, it opens as the list, up to origins and the flag generated. Where no element of the
/// first page is of the type of references, kept blocks may hold anything, and leaves that are kept
/// whole may stand elsewhere.
pub fn kept_page_is_read_back()
    ensures plain { KeptIsReadBack }
    ensures readable { ReadableIsReadBack }
{}

/// An element equal to the one first read is its original bytes, also where it was moved. In the
/// page they stand between what is written before it and after it: those of a block in no kept node,
/// and of a leaf in a changed block's content. Outside of changed siblings at the top level the page
/// is as it was, if the whitespace before them stays, and whether the last is bare.
pub fn kept_bytes_stand()
    ensures block { KeptBlockStands }
    ensures leaf { KeptLeafStands }
    ensures bytes { BytesAreFirst }
    ensures moved { MovedKeepsBytes }
    ensures siblings { SiblingsJoin }
    ensures rest { RestStands }
{}
