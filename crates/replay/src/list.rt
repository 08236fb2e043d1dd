// Where the list is read to.
ghost use Rattle.std.specs.Prelude.{◌≡◌, length};

// Room for a list: what follows is not read.
// Kept: (a) no heap and a fixed memory, a rule of the project: with a `Vec` a run could fail for want of memory.
pub fn room() -> [u8; 524288]
    ensures { 524288 ≡ length result }
{
    [0; 524288]
}
