// Why a page isn't read.
ghost use Rattle.std.specs.Prelude.{◌≡◌, ◌+◌, IfOk, Option, option_map};
ghost use Rattle.model_spelling.specs.Faults.{ForestFault};
ghost use Rattle.model_spelling.specs.Page.{fault_in_page_if_any};
ghost use Rattle.model_page.specs.Limits.{Limit, moved_to};
ghost use Rattle.ve_html_tree.specs.Seen.{IsFirstFault};
ghost use Rattle.ve_reader.specs.Stops.{stop_limit};
ghost use Rattle.ve_read.specs.Faults.{HasFault, IsFault, IsOver};
ghost use Rattle.ve_read.specs.Moved.{limit_moved};
ghost use Rattle.ve_read.specs.Pages.{spelled_fault};

use model_spelling::ScanFault;
use thiserror::Error;
use ve_base::Memory;
use ve_html_tree::HtmlFault;
use ve_reader::ReadStop;

/// Why a page isn't read: the first refusal, in the order in which they stand here, or want of memory. Bytes are those of the page.
#[derive(Clone, Copy, Debug, PartialEq, Eq, Error)]
pub enum ReadFault {
    /// It has more than `MAX_PAGE` bytes.
    #[error("the page has {len} bytes")]
    PageTooLong { len: usize },
    /// It has no body, or no forest spells it.
    #[error("{0}")]
    Html(HtmlFault),
    /// A node would stand inside of `MAX_OPEN_KINDS` kinds already; one of the body of a reference is named by that reference.
    #[error("byte {at} is too deep")]
    TooDeep { at: usize },
    /// An annotation would stand inside of `MAX_MARKS` marks already, with the byte named so, too.
    #[error("byte {at} has too many marks")]
    TooManyMarks { at: usize },
    /// It has more than `MAX_ITEMS` items.
    #[error("the page has {count} items")]
    TooManyItems { count: usize },
    /// Its items cite more than `MAX_VALUES` values.
    #[error("the page has too many values")]
    StoreFull,
    /// There is no memory for it.
    #[error("out of memory")]
    Memory,
}

impl From<Memory> for ReadFault {
    ghost use Rattle.std.specs.Prelude.{◌≡◌};
    ghost use Rattle.ve_read.specs.declared.fault.ReadFault.TheVariants.{Memory as OutOfMemory};

    ghost from_gives = { λ _ e. e ≡ OutOfMemory };

    fn from(_: Memory) -> Self {
        ReadFault::Memory
    }
}

/// A byte of the page by the body's first byte and its place in the body. One that no `usize` holds is a want of memory like any other.
pub fn byte_in_page(from: usize, at: usize) -> Result<usize, Memory>
    ensures { IfOk result (λ byte. byte ≡ from + at) }
{
    match from.checked_add(at) {
        Some(byte) => Ok(byte),
        None => Err(Memory),
    }
}

/// A fault of a body's text, as the page has it.
fn moved_fault(fault: HtmlFault, from: usize) -> Result<HtmlFault, Memory>
    ensures { IfOk result (λ moved.
        (first : Option ForestFault)
        → IsFirstFault fault first
        → HasFault (spelled_fault moved) (fault_in_page_if_any from first)) }
{
    match fault {
        HtmlFault::Scan(scan) => {
            let at = byte_in_page(from, scan.at)?;
            let what = scan.what;
            Ok(HtmlFault::Scan(ScanFault { at, what }))
        }
        HtmlFault::Mismatched { at } => {
            let at = byte_in_page(from, at)?;
            Ok(HtmlFault::Mismatched { at })
        }
        HtmlFault::Unclosed { at } => {
            let at = byte_in_page(from, at)?;
            Ok(HtmlFault::Unclosed { at })
        }
        HtmlFault::Stray { at } => {
            let at = byte_in_page(from, at)?;
            Ok(HtmlFault::Stray { at })
        }
        HtmlFault::TooDeep { at } => {
            let at = byte_in_page(from, at)?;
            Ok(HtmlFault::TooDeep { at })
        }
        HtmlFault::Memory => Err(Memory),
    }
}

/// The first fault of a page, by that of the text of its body, which begins at a byte of it.
pub fn fault_in_page(fault: HtmlFault, from: usize) -> ReadFault
    ensures { (first : Option ForestFault)
        → IsFirstFault fault first
        → IsFault result (fault_in_page_if_any from first) }
{
    match moved_fault(fault, from) {
        Ok(moved) => ReadFault::Html(moved),
        Err(Memory) => ReadFault::Memory,
    }
}

/// The limit that the body passes, which begins at a byte of the page.
pub fn stop_in_page(stop: ReadStop, from: usize) -> ReadFault
    ensures { (limit : Option Limit)
        → stop_limit stop limit
        → IsOver result (option_map (limit_moved from) limit) }
{
    match stop {
        ReadStop::TooDeep { at } => match byte_in_page(from, at) {
            Ok(byte) => ReadFault::TooDeep { at: byte },
            Err(Memory) => ReadFault::Memory,
        },
        ReadStop::TooManyMarks { at } => match byte_in_page(from, at) {
            Ok(byte) => ReadFault::TooManyMarks { at: byte },
            Err(Memory) => ReadFault::Memory,
        },
        ReadStop::Memory => ReadFault::Memory,
    }
}

/// The limit that the body of a reference passes, by the byte of the page where that starts.
pub fn stop_at_owner(stop: ReadStop, at: usize) -> ReadFault
    ensures { (limit : Option Limit)
        → stop_limit stop limit
        → IsOver result (option_map (moved_to at) limit) }
{
    match stop {
        ReadStop::TooDeep { .. } => ReadFault::TooDeep { at },
        ReadStop::TooManyMarks { .. } => ReadFault::TooManyMarks { at },
        ReadStop::Memory => ReadFault::Memory,
    }
}
