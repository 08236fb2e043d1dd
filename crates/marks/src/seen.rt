// Which of the 256 values stand in a capture.

ghost use Rattle.marks.specs.Inner.Seen.{Seen, Sees};

// Marks the values of the symbols.
fn see_each(seen: &mut [bool; 256], symbols: &[u8])
    ensures { Sees seen.old symbols.now seen.new }
{
    for symbol in symbols {
        seen[usize::from(*symbol)] = true;
    }
}

// Marks the values of four symbols. Most turns find them all marked, and reading is cheaper than writing.
fn see_four(seen: &mut [bool; 256], four: &[u8; 4])
    ensures { Sees seen.old four.now seen.new }
{
    let [a, b, c, d] = four.map(|symbol| u8::from(seen[usize::from(symbol)]));
    if a + b + c + d < 4 {
        see_each(seen, four);
    }
}

// Marks the values that stand in the capture.
pub(crate) fn seen_in(symbols: &[u8]) -> [bool; 256]
    ensures { Seen symbols.now result }
{
    let mut seen = [false; 256];
    let (fours, rest) = symbols.as_chunks::<4>();
    for four in fours {
        see_four(&mut seen, four);
    }
    see_each(&mut seen, rest);
    seen
}
