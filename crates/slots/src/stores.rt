// Stretches of a file, taken over into rows of a case.
ghost use Rattle.std.specs.Prelude.{◌≡◌, ◌+◌, ◌*◌, ◌≤◌, length};
ghost use Rattle.walks.specs.Below.{table_from};
ghost use Rattle.rack.specs.Bytes.{filled, put, marked, list_at, list_end, ListIs};
ghost use Rattle.slots.specs.Seconds.{every_second};

// The bytes, filled up with zeros.
pub fn fill_up<const SLOTS: usize>(bytes: &[u8]) -> [u8; SLOTS]
    requires { length bytes.now ≤ SLOTS }
    ensures { result ≡ filled SLOTS bytes.now }
{
    let mut room = [0; SLOTS];
    room[..bytes.len()].copy_from_slice(bytes);
    room
}

// Marks a counted list of the file, which stands at `at`, in one of the rows, each `width` wide: a 1 at each number of
// the list. Gives the offset after the list.
pub fn mark_list(rows: &mut [u8], row: usize, width: usize, file: &[u8], at: usize) -> usize
    requires { ListIs width file.now at × (row * width + width ≤ length rows.old) }
    ensures { (rows.new ≡ marked (row * width) (list_at file.now at) rows.old) × (result ≡ list_end file.now at) }
{
    let base = row * width;
    let from = at + 1;
    let end = from + usize::from(file[at]);
    for number in &file[from..end] {
        rows[base + usize::from(*number)] = 1;
    }
    end
}

// Puts one of the two bounds of each place into `rows` from `base` on: every second byte of the file from offset `from`
// on.
pub fn put_bounds(rows: &mut [u8; 64], base: usize, file: &[u8], from: usize, places: usize)
    requires { (from + 2 * places ≤ length file.now + 1) × (base + places ≤ 64) }
    ensures { rows.new ≡ put rows.old base (table_from 0 places (every_second file.now from)) }
{
    for p in 0..places {
        rows[base + p] = file[from + 2 * p];
    }
}
