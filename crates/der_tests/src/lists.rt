// Lists and copies once with ample memory, and the text of want of memory.
use crate::tables::{check_tables, debug, displayed, good};
use foundation::{Duplicate, NoMemory, Sequence};
use std::process::Abort;

/// Whether a new list is empty, the length of a list of 7, 8 and 9, whether its copy equals it, and the
/// copy's items.
pub fn numbers<X: AllocGlobal + Abort>(rt: &X) -> String {
    let mut list = Sequence::new(rt.alloc());
    let is_empty = list.is_empty();
    good(rt, list.push(7u64));
    good(rt, list.push(8));
    good(rt, list.push(9));
    let copy = good(rt, list.duplicate(rt.alloc()));
    let (length, is_copied) = (list.len(), copy == list);
    let items = copy.into_vec();
    drop(list);
    debug(rt, (is_empty, length, is_copied, items))
}

/// The items of a copy of the list of these.
pub fn options<X: AllocGlobal + Abort>(rt: &X) -> String {
    let items = good(rt, vec![in rt.alloc(); Some(true), None]);
    let copy = good(rt, Sequence::from_vec(items).duplicate(rt.alloc()));
    let answer = debug(rt, copy.as_slice());
    drop(copy);
    answer
}

/// The text of want of memory.
pub fn want_of_memory<X: AllocGlobal + Abort>(rt: &X) -> String {
    displayed(rt, NoMemory)
}

const LISTS: &str = "\
Sequence::numbers - => (true, 3, true, [7, 8, 9])
Sequence::options - => [Some(true), None]
NoMemory - => NoMemory";

#[test]
fn lists_keep_their_items(rt: HostRuntime) {
    check_tables(&rt, &[LISTS]);
}
