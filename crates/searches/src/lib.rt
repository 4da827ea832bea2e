// Searches in a column of `columns` that rises strictly, by halving. What each function answers stands in
// specs/Search.antt; on a column that does not rise the answer is a place all the same.
#![tactic(auto)]

ghost use Rattle.columns.specs.Column.{Upto};
ghost use Rattle.searches.specs.Search.{Before, Sought};

use keys::Bound;

// How many of the first n lie at or below the key, found by halving: right if they rise strictly. Written out, since
// where many keys are looked for one after the other, as in `counts::left`, the library's `partition_point` takes
// half as much time again.
pub fn upto(column: &[u64], n: usize, key: u64) -> usize
    ensures { Upto column.now n key result }
{
    let mut lo: usize = 0;
    let mut hi = n.min(column.len());
    while lo < hi {
        let mid = lo + (hi - lo) / 2;
        if column[mid] <= key {
            lo = mid + 1;
        } else {
            hi = mid;
        }
    }
    lo
}

// How many of the first n lie below the bound: right if they rise strictly. End lies above all.
pub fn before(column: &[u64], n: usize, bound: Bound) -> usize
    ensures { Before column.now n bound result }
{
    match bound {
        Bound::Key(k) => {
            if k == 0 {
                return 0;
            }
            upto(column, n, k - 1)
        }
        Bound::End => n,
    }
}

// Where the key stands among the first n, or else where it belongs: right if they rise strictly.
pub fn seek(column: &[u64], n: usize, key: u64) -> Result<usize, usize>
    ensures { Sought column.now n key result }
{
    let p = upto(column, n, key);
    if p == 0 || column[p - 1] != key {
        return Err(p);
    }
    Ok(p - 1)
}
