// Faults of a text that no forest spells.
ghost use Rattle.std.specs.Prelude.{◌≡◌};
ghost use Rattle.ve_html_tree.specs.declared.fault.HtmlFault.TheVariants.{Memory};

use std::alloc::AllocFailed;
use thiserror::Error;
use ve_html_scan::ScanFault;

/// The first fault of a text, with the byte of the `<` that it names; or a want of memory.
#[derive(Clone, Copy, Debug, PartialEq, Eq, Error)]
pub enum HtmlFault {
    /// A token that no spelling allows.
    #[error("{0}")]
    Scan(ScanFault),
    /// An end tag that isn't the innermost open element's.
    #[error("the end tag at byte {at} closes another element than the open one")]
    Mismatched { at: usize },
    /// The innermost element that is open at the end of the text.
    #[error("the element at byte {at} is not closed")]
    Unclosed { at: usize },
    /// An end tag of a void element, or with no element open.
    #[error("the end tag at byte {at} closes nothing")]
    Stray { at: usize },
    /// An element within as many open ones as there may be.
    #[error("the element at byte {at} is nested too deep")]
    TooDeep { at: usize },
    #[error("there is no memory for it")]
    Memory,
}

impl<T: Drop> From<AllocFailed<T>> for HtmlFault {
    ghost from_gives = { λ _ fault. fault ≡ Memory };

    fn from(_: AllocFailed<T>) -> Self {
        HtmlFault::Memory
    }
}
