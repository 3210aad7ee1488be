// One row of a table, fed to a sponge ten words at a time: no buffer holds a whole row.
ghost use Rattle.std.specs.Prelude.{◌≡◌, ◌+◌, ◌*◌, ◌≤◌, ◌<◌, drop, get_or, length, take};
ghost use Rattle.sponge.specs.declared.Domain.TheVariants.{VariableLength};
ghost use Rattle.sponge.specs.History.{padded_steps, run};
ghost use Rattle.sponge.specs.Sponge as Sponge;
ghost use Rattle.rows.specs.Table.{column_in, entry_in, row_in};

use crate::table::Table;
use columns::Column;
use sponge::{RATE, Tip5};

impl<'a> Table<'a> {
    // A column, entry after entry.
    #[tactic(auto, unfolding(crate::specs::Rows::column_of))]
    fn column(&self, column: usize) -> &[u64]
        requires { column < self.now.columns }
        ensures { result.now ≡ column_in self.now column }
    {
        let size = self.rows * self.width;
        &self.words[column * size..][..size]
    }

    // A part of a column's entry, by a view of that column, which has it.
    #[tactic(auto, using(crate::proofs::TableLaws::view_part))]
    fn entry_word(&self, column: usize, row: usize, part: usize) -> u64
        requires { (column < self.now.columns) × (row < self.now.rows) × (part < self.now.width) }
        ensures { result ≡ get_or (entry_in self.now column row) part 0 }
    {
        let view = Column {
            elements: self.column(column),
            stride: self.width,
            offset: part,
        };
        view.get(row).unwrap()
    }

    // The words of a row from word `at` on, as many as there is room for. Word k is part k % width of column k / width.
    #[tactic(auto, using(crate::proofs::TableLaws::row_more, crate::proofs::TableLaws::row_fits, std::proofs::lemmas::Grind::common_steps))]
    fn put_words(&self, row: usize, at: usize, room: &mut [u64])
        requires { (row < self.now.rows) × (at + length room.old ≤ self.now.columns * self.now.width) }
        ensures { room.new ≡ take (length room.old) (drop at (row_in self.now row)) }
    {
        for (i, word) in room.iter_mut().enumerate() {
            let k = at + i;
            *word = self.entry_word(k / self.width, row, k % self.width);
        }
    }

    // Three methods take a row below `rows`, from the one loop over them: a type for it would be made in that loop, to save one
    // clause at each.

    // The sponge that absorbed a padded row. Its words and the table's are below P, so no call is refused.
    #[tactic(auto, using(crate::proofs::RowLaws::ten_granted, crate::proofs::RowLaws::ten_more, crate::proofs::TableLaws::row_fits))]
    pub(crate) fn row_sponge(&self, row: usize) -> Tip5
        requires { row < self.now.rows }
        ensures { result ≡ run (padded_steps (row_in self.now row)) (Sponge.start VariableLength) }
    {
        let length = self.columns * self.width;
        let mut sponge = Tip5::init();
        let mut ten = [0; RATE];
        for n in 0..length / RATE {
            self.put_words(row, n * RATE, &mut ten);
            sponge.absorb(&ten).unwrap();
        }
        let rest = &mut ten[..length % RATE];
        self.put_words(row, length - rest.len(), rest);
        sponge.pad_and_absorb_all(rest).unwrap();
        sponge
    }
}
