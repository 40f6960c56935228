// Places of a text.
ghost use Rattle.lines.specs.Text.{First};

// The place of the first such byte from a place on.
pub fn find(t: &[u8], from: usize, b: u8) -> Option<usize>
    ensures { First b from t.now result }
{
    // over the places, since they count from the text's begin
    (from..t.len()).find(|k| t[*k] == b)
}
