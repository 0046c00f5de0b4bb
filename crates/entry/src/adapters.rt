// The kind of an adapter's number in a list of adapters, which comes as bytes: number, kind, number, kind, ...
ghost use Rattle.std.specs.Prelude.{◌≡◌};
ghost use Rattle.entry.specs.Adapters.{kind_in};

// The kind of the first adapter with the number, or 0, "other". A last byte that has no kind behind it counts for nothing.
// Document 01 names this form of the search, a `loop` that yields the kind by `break`; the cursor moves by pairs.
pub fn kind_in(list: &[u8], number: u8) -> u8
    ensures { result ≡ kind_in list.now number }
{
    let mut i = 0;
    loop {
        if list.len() - i < 2 {
            break 0;
        }
        if list[i] == number {
            break list[i + 1];
        }
        i += 2;
    }
}
