// From raw words to indices at the front of a lent slice.
ghost use Rattle.std.specs.Prelude.{◌≡◌, ◌<◌};
ghost use Rattle.numbers.specs.Modulus.{P};
ghost use Rattle.rounds.specs.Field.{Below, value_of};
ghost use Rattle.draws.specs.Draw.{drawn_from, from_words};
ghost use Rattle.draws.specs.Filled.{filled};

use crate::bound::Bound;
use rounds::P;
use tip5::b_field_element::BFieldElement;

// The value that draws nothing: P - 1.
const SKIPPED: u64 = P - 1;

// What a word draws is put at the front, if there is room: how many indices are put, none or one, as `put_indices` counts
// them. The words of a squeezed ten are plain u64, as a squeeze answers them: a type for one below P is private to `tip5`.
#[tactic(auto, using(crate::proofs::IndexLaws::put_nothing, crate::proofs::IndexLaws::put_no_room, crate::proofs::IndexLaws::put_one))]
fn put_index(word: u64, bound: Bound, free: &mut [u32]) -> usize
    requires { word < P }
    ensures { (result, free.new) ≡ filled (drawn_from bound (value_of word)) free.old }
{
    let value = BFieldElement(word).value().unwrap();
    if value.0 == SKIPPED || free.is_empty() {
        return 0;
    }
    free[0] = bound.index_of(value);
    1
}

// The same of each word, in their order.
#[tactic(auto, using(crate::proofs::IndexLaws::put_begins, crate::proofs::FilledLaws::filled_room))]
pub(crate) fn put_indices(words: &[u64], bound: Bound, free: &mut [u32]) -> usize
    requires { Below words.now }
    ensures { (result, free.new) ≡ filled (from_words bound words.now) free.old }
{
    let mut put = 0;
    for &word in words {
        put += put_index(word, bound, &mut free[put..]);
    }
    put
}
