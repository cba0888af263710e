// Tables of rows.
ghost use Rattle.std.specs.Prelude.{◌≡◌, ◌≢◌, ◌<◌, ℕ};
ghost use Rattle.moment_stores.specs.Rows.{rows, value_at, place_set, table, IsTable};

/// The value at a place of a row; another where there is none.
pub fn value_in<T: Copy>(all: &[Vec<T>], row: usize, place: usize, other: T) -> T
    ensures { result ≡ value_at (rows all.now) row place other }
{
    if row < all.len() && place < all[row].len() {
        all[row][place]
    } else {
        other
    }
}

/// Gives a place of a row another value, if it is there.
pub fn set_in<T: Copy + Drop>(all: &mut [Vec<T>], row: usize, place: usize, value: T)
    ensures { rows all.new ≡ place_set (rows all.old) row place value }
{
    if row < all.len() && place < all[row].len() {
        all[row][place] = value;
    }
}

// Gives all places of a row the value.
fn fill_row<T: Copy + Drop>(all: &mut [Vec<T>], count: usize, width: usize, row: usize, value: T)
    requires table { IsTable count width (rows all.old) }
    requires row { row < count }
    ensures table { IsTable count width (rows all.new) }
    ensures here { (place : ℕ) (d : T) → place < width → value_at (rows all.new) row place d ≡ value }
    ensures others { (other place : ℕ) (d : T) → other ≢ row → value_at (rows all.new) other place d ≡ value_at (rows all.old) other place d }
{
    'each: for place in 0..width {
        set_in(all, row, place, value);
    }
}

/// Gives all places of all rows the value.
pub fn fill_in<T: Copy + Drop>(all: &mut [Vec<T>], count: usize, width: usize, value: T)
    requires { IsTable count width (rows all.old) }
    ensures { rows all.new ≡ table count width (λ row place. value) }
{
    'each: for row in 0..count {
        fill_row(all, count, width, row, value);
    }
}
