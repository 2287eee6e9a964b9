//! Marks by inode number and by page.

ghost use Rattle.std.specs.Prelude.{◌≡◌, ◌+◌, ◌++◌, ◌∷◌, [], ℕ, List, IfOk, false, map, slice_index_or, vec_len};
ghost use Rattle.trio_lists.specs.Marked.{MarksJust};

use std::alloc::Global;
use trio_lease::FreshIno;
use trio_page::NoMemory;

/// No number below `count` is marked.
pub(crate) fn no_marks(alloc: Global, count: usize) -> Result<Vec<bool>, NoMemory>
    ensures marks { IfOk result (λ marks. MarksJust marks.items []) }
    ensures len { IfOk result (λ marks. vec_len marks ≡ count) }
{
    vec![in alloc; false; count]
}

/// Whether a number is marked. None past the last is.
pub(crate) fn is_marked(marks: &[bool], number: u32) -> bool
    ensures { result ≡ slice_index_or marks.now number false }
{
    matches!(marks.get(number as usize), Some(true))
}

/// Marks a number, where it has a mark.
pub(crate) fn mark(marks: &mut Vec<bool>, number: u32)
    ensures marked { (before : List ℕ) → MarksJust marks.old.items before → MarksJust marks.new.items (before ++ number ∷ []) }
    ensures len { vec_len marks.new ≡ vec_len marks.old }
{
    let at = number as usize;
    if at < marks.len() {
        marks[at] = true;
    }
}

/// The marks of these inode numbers, of those from 0 up to `inodes`.
pub(crate) fn number_marks(
    alloc: Global,
    numbers: &[FreshIno],
    inodes: u32,
) -> Result<Vec<bool>, NoMemory>
    ensures marks { IfOk result (λ marks. MarksJust marks.items (map (λ n. n.no) numbers.now)) }
    ensures len { IfOk result (λ marks. vec_len marks ≡ inodes + 1) }
{
    let mut marks = no_marks(alloc, inodes as usize + 1)?;
    for number in numbers {
        mark(&mut marks, number.no());
    }
    Ok(marks)
}
