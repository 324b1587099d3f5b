//! Lists that grow as a whole or not at all.

ghost use Rattle.std.specs.Prelude.{◌≡◌, ◌++◌, ◌∷◌, [], take, OnOk, OnErr};

use alg_terms::{NoMemory, Seq, Statement};
use std::alloc::Global;
use std::mem;

/// Adds items at the end of a list. Where there is no memory for them the list is as before.
fn append<T: Drop>(alloc: Global, list: &mut Seq<T>, items: Vec<T>) -> Result<(), NoMemory>
    ensures ok { OnOk result (list.new ≡ list.old ++ items.items) }
    ensures err { OnErr result (list.new ≡ list.old) }
{
    let mut items = items;
    let mut whole = mem::replace(list, Seq::from_vec(Vec::new(alloc))).into_vec();
    let appended = whole.append(&mut items);
    *list = Seq::from_vec(whole);
    appended
}

/// Keeps the first items of a list alone.
fn truncate<T: Drop>(alloc: Global, list: &mut Seq<T>, len: usize)
    ensures { list.new ≡ take len list.old }
{
    let mut whole = mem::replace(list, Seq::from_vec(Vec::new(alloc))).into_vec();
    whole.truncate(len);
    *list = Seq::from_vec(whole);
}

/// Adds members at the end of a list and their statement at the end of the order, or neither.
pub(crate) fn declare<T: Drop>(
    alloc: Global,
    list: &mut Seq<T>,
    members: Vec<T>,
    order: &mut Seq<Statement>,
    statement: Statement,
) -> Result<(), NoMemory>
    ensures list_ok { OnOk result (list.new ≡ list.old ++ members.items) }
    ensures order_ok { OnOk result (order.new ≡ order.old ++ statement ∷ []) }
    ensures list_err { OnErr result (list.new ≡ list.old) }
    ensures order_err { OnErr result (order.new ≡ order.old) }
{
    let known = order.items().len();
    order.push(statement)?;
    match append(alloc, list, members) {
        Ok(()) => Ok(()),
        Err(error) => {
            truncate(alloc, order, known);
            Err(error)
        }
    }
}
