// A column: a slice of numbers of which the first n count. A table has one column a field, and the
// places of an entry in all of them are the same. What each function answers stands in
// specs/Column.antt. Nothing is asked of a caller: what does not fit is refused, and then nothing has
// changed.
#![tactic(auto)]

ghost use Rattle.columns.specs.Column.{Inserted, Cut, Rises};

// Puts v before the element at `at`. What stood at n, past those that count, is gone.
pub fn insert(column: &mut [u64], n: usize, at: usize, v: u64) -> bool
    ensures { Inserted column.old n at v result column.new }
{
    if column.len() <= n || n < at {
        return false;
    }
    column.copy_within(at..n, at + 1);
    column[at] = v;
    true
}

// Takes the elements from i up to j out of the first n, and moves those after them down.
pub fn cut(column: &mut [u64], n: usize, i: usize, j: usize) -> bool
    ensures { Cut column.old n i j result column.new }
{
    if column.len() < n || n < j || j < i {
        return false;
    }
    if i < j {
        column.copy_within(j..n, i);
    }
    true
}

// Do the first n rise strictly?
pub fn rises(column: &[u64], n: usize) -> bool
    ensures { Rises column.now n result }
{
    column.len() >= n && column[..n].is_sorted_by(|a, b| a < b)
}
