// A table that was judged. Its facts are met once, where it is made: no method asks for them.
ghost use Rattle.std.specs.Prelude.{◌≡◌, ◌*◌, ◌<◌, length};
ghost use Rattle.rounds.specs.Field.{Below};

// Columns one after another, each of `rows` entries of `width` words.
// Nothing compares or prints it.
#[derive(Clone, Copy)]
pub(crate) struct Table<'a> {
    pub(crate) words: &'a [u64],
    pub(crate) columns: usize,
    pub(crate) rows: usize,
    pub(crate) width: usize,
    ghost wide: { 0 < width },
    ghost size: { length words.now ≡ columns * rows * width },
    ghost below: { Below words.now },
}
