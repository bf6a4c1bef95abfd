// A line of a sheet, without its line feed, and the key that it starts with.
ghost use Rattle.sheet.specs.Reader.{Starts};

// Whether a line starts with a key.
pub fn starts(line: &[u8], key: &[u8]) -> bool
    ensures { Starts key.now line.now result }
{
    line.starts_with(key)
}
