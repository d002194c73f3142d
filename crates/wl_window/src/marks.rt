//! Rows of marks, whose first is that of the base.

ghost use Rattle.std.specs.Prelude.{◌≡◌, ◌==◌, ◌+◌, ◌-◌, ◌^◌, ◌<◌, ◌≤◌, ℕ, Bool, true, false, nat_lt, length, slice_get, OnOk, OnErr};
ghost use Rattle.std.specs.VecDeque.{deque_len, deque_capacity};
ghost use Rattle.wl_window.specs.Originating.{book_at, free_mark, open_mark, done_mark, booked_mark, has_free, finished, newly, names, settled, Sending, TakesDone};

use crate::distance::distance_to;
use crate::mark::Mark;
use std::collections::VecDeque;
use wl_elem::Memory;

/// Makes room for the mark at an index.
pub fn reserve_marks(marks: &mut VecDeque<Mark>, index: usize) -> Result<(), Memory>
    requires { index < 2 ^ 32 }
    ensures marks { marks.new.items ≡ marks.old.items }
    ensures kept { deque_capacity marks.old ≤ deque_capacity marks.new }
    ensures ok { OnOk result (index < deque_capacity marks.new) }
    ensures full { OnErr result (deque_capacity marks.old ≤ index) }
{
    let more = (index + 1).saturating_sub(marks.len());
    marks.reserve(more)?;
    Ok(())
}

/// Books the mark at an index, where there is room for it.
pub fn book(marks: &mut VecDeque<Mark>, index: usize)
    requires { index < deque_capacity marks.old }
    ensures marks { marks.new.items ≡ book_at index marks.old.items }
    ensures kept { deque_capacity marks.new ≡ deque_capacity marks.old }
{
    'gap: while marks.len() <= index {
        marks.push_back_reserved(Mark::Free);
    }
    marks[index] = Mark::Booked;
}

/// The mark at an index. None exactly from the length on.
pub fn mark_at(marks: &VecDeque<Mark>, index: usize) -> Option<Mark>
    ensures { result ≡ slice_get marks.now.items index }
{
    marks.get(index).copied()
}

/// Whether a position isn't booked.
fn is_free(mark: Mark) -> bool
    ensures { result ≡ free_mark mark }
{
    matches!(mark, Mark::Free)
}

/// Whether there is a mark, and its position is booked and not done.
fn is_open(mark: Option<Mark>) -> bool
    ensures { result ≡ open_mark mark }
{
    matches!(mark, Some(Mark::Booked))
}

/// Whether there is a mark, and its position is done.
pub fn is_done(mark: Option<Mark>) -> bool
    ensures { result ≡ done_mark mark }
{
    matches!(mark, Some(Mark::Done))
}

/// Whether there is a mark, and its position is booked, and perhaps done.
pub fn is_booked(mark: Option<Mark>) -> bool
    ensures { result ≡ booked_mark mark }
{
    matches!(mark, Some(Mark::Booked | Mark::Done))
}

/// Makes the mark at an index done, if it is booked; 1 where it is.
pub fn finish_at(marks: &mut VecDeque<Mark>, index: usize) -> u32
    ensures marks { marks.new.items ≡ finished (λ k. k == index) marks.old.items }
    ensures newly { result ≡ newly (λ k. k == index) marks.old.items }
    ensures kept { deque_capacity marks.new ≡ deque_capacity marks.old }
{
    if !is_open(mark_at(marks, index)) {
        return 0;
    }
    marks[index] = Mark::Done;
    1
}

/// Makes the booked marks before an index done, and counts them.
pub fn finish_below(marks: &mut VecDeque<Mark>, end: usize) -> u32
    requires { length marks.old.items < 2 ^ 32 }
    ensures marks { marks.new.items ≡ finished (λ k. nat_lt k end) marks.old.items }
    ensures newly { result ≡ newly (λ k. nat_lt k end) marks.old.items }
    ensures kept { deque_capacity marks.new ≡ deque_capacity marks.old }
{
    let mut count = 0;
    'below: for index in 0..end {
        count += finish_at(marks, index);
    }
    count
}

/// Makes the booked marks done whose position has one of these 12-bit numbers, and counts them.
pub fn finish_named(marks: &mut VecDeque<Mark>, base: u32, stored: &[u16]) -> u32
    requires { length marks.old.items < 2 ^ 32 }
    ensures marks { marks.new.items ≡ finished (names base stored.now) marks.old.items }
    ensures newly { result ≡ newly (names base stored.now) marks.old.items }
    ensures kept { deque_capacity marks.new ≡ deque_capacity marks.old }
{
    let mut count = 0;
    'stored: for number in stored {
        count += finish_at(marks, usize::from(distance_to(base, *number)));
    }
    count
}

/// Whether one of the first marks isn't booked.
pub fn lacks(marks: &VecDeque<Mark>, count: usize) -> bool
    ensures { result ≡ has_free count marks.now.items }
{
    'marks: for index in 0..count {
        let Some(mark) = mark_at(marks, index) else {
            return false;
        };
        if is_free(mark) {
            return true;
        }
    }
    false
}

/// Takes the first mark, if it is done.
fn take_done(marks: &mut VecDeque<Mark>) -> bool
    ensures taken { TakesDone marks.old.items result marks.new.items }
    ensures kept { deque_capacity marks.new ≡ deque_capacity marks.old }
{
    if !is_done(mark_at(marks, 0)) {
        return false;
    }
    marks.pop_front();
    true
}

/// Takes the first marks that are done. The new base.
pub fn settle(marks: &mut VecDeque<Mark>, base: u32) -> u32
    requires { base + length marks.old.items < 2 ^ 32 }
    ensures settled { (granted : ℕ) → settled granted base marks.old.items ≡ record { granted = granted; base = result; marks = marks.new.items } }
    ensures kept { deque_capacity marks.new ≡ deque_capacity marks.old }
{
    let mut first = base;
    'done: while take_done(marks) {
        first += 1;
    }
    first
}
