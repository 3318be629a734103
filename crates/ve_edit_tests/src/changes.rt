// Transactions that are performed and taken back on lists of their own, a short one of all three
// operations and one of thirty thousand.
ghost use Rattle.std.specs.Prelude.{All};
ghost use Rattle.model_items.specs.Plain.{CitesWell};
ghost use Rattle.ve_tx_samples.specs.NoValues.{TxCitesNothing};

use std::alloc::Global;
use std::test::Fail;
use ve_items::Linear;
use ve_store::Store;
use ve_tx::Transaction;
use ve_tx_samples::{page, page_line, transaction};

/// A page, a transaction of it, and its result, each so many times; and the items retained at the
/// page's end.
#[derive(Clone, Copy)]
struct Case {
    page: &'static str,
    line: &'static str,
    end: &'static str,
    times: usize,
    makes: &'static str,
}

const CASES: [Case; 2] = [
    Case {
        page: "<p>ab</p>",
        line: "id:>x class:>y 2 -b+xyz ",
        end: "3",
        times: 1,
        makes: "<p id=\"x\" class=\"y\">axyz</p>",
    },
    Case {
        page: "<p>a",
        line: "id:>x 1 -a+bc ",
        end: "2",
        times: 10_000,
        makes: "<p id=\"x\">bc",
    },
];

/// A text so many times, and its end. It has no clause, since proofs would compute it.
fn repeated(alloc: Global, text: &str, times: usize, end: &str) -> Result<String, Fail> {
    let mut line = text.repeat(alloc, times)?;
    line.push_str(end)?;
    Ok(line)
}

/// The lines of a list after a transaction, and after its inverse.
fn there_and_back(
    alloc: Global,
    tx: &Transaction,
    back: &Transaction,
    list: &mut Linear,
    store: &mut Store,
) -> Result<(String, String), Fail>
    requires list { All (CitesWell store.old) list.old.items }
    requires cites { TxCitesNothing tx.now }
    requires back_cites { TxCitesNothing back.now }
{
    tx.apply(alloc, list, store)?;
    let made = page_line(alloc, list, store)?;
    back.apply(alloc, list, store)?;
    Ok((made, page_line(alloc, list, store)?))
}

/// The same of a page.
fn made_and_back(alloc: Global, tx: &Transaction, text: &str) -> Result<(String, String), Fail>
    requires { TxCitesNothing tx.now }
{
    let back = tx.inverse(alloc)?;
    let mut list = page(alloc, text)?;
    let mut store = Store::new(alloc);
    there_and_back(alloc, tx, &back, &mut list, &mut store)
}

/// Whether a transaction makes what it should of a case's page, which comes back when it is taken
/// back.
fn is_as_said(alloc: Global, tx: &Transaction, case: &Case) -> Result<bool, Fail>
    requires { TxCitesNothing tx.now }
{
    let text = repeated(alloc, case.page, case.times, "")?;
    let (made, back) = made_and_back(alloc, tx, text.as_str())?;
    let expected = repeated(alloc, case.makes, case.times, "")?;
    Ok(made.as_str() == expected.as_str() && back.as_str() == text.as_str())
}

fn is_met(alloc: Global, case: &Case) -> Result<bool, Fail> {
    let line = repeated(alloc, case.line, case.times, case.end)?;
    let tx = transaction(alloc, line.as_str())?;
    is_as_said(alloc, &tx, case)
}

#[test]
fn changes_are_performed_and_taken_back(rt: HostRuntime) -> Result<(), Fail> {
    for case in &CASES {
        assert!(rt; is_met(rt.alloc(), case)?, "{}", case.line);
    }
    Ok(())
}
