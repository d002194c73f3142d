//! The calls of lists.

use std::alloc::Global;
use wl_elem::List;

/// Adds what a list's calls answer: `len` and `is_empty`, and `get` of each item and of the index behind
/// the last.
macro_rules! push_list {
    ($out:expr, $list:expr, $push_item:ident $(, $alloc:expr)?) => {{
        if $list.as_slice().len() > 1_000 {
            return None;
        }
        write!($out, "len={} empty={}", $list.len(), yes($list.is_empty())).ok()?;
        for i in 0..$list.len() {
            $push_item($($alloc,)? $out, $list.get(i)?)?;
        }
        if $list.get($list.len()).is_some() {
            return None;
        }
        $out.push_str(" none").ok()
    }};
}

/// The same list, taken apart and built again by `into_vec`, `from_vec`, `new` and `push`.
pub fn rebuilt<T: Drop>(alloc: Global, list: List<T>) -> Option<List<T>> {
    let mut again = List::new(alloc);
    for item in List::from_vec(list.into_vec()).into_vec() {
        again.push(item).ok()?;
    }
    Some(again)
}

pub(crate) use push_list;
