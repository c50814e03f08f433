// A text for each word.
ghost use Rattle.std.specs.Prelude.{◌≡◌, ℕ, List};
ghost use Rattle.std.specs.List.{flat_map};
ghost use Rattle.pages.specs.Pages.{Says};

use super::page::Page;
use super::print::Print;

// Prints what is made of each word, one after another. A type with its `From` says what is made, and no closure, since one may
// have to ask its caller before it is called.
pub fn print_each<P: From<u32> + Print + Drop>(page: &mut Page<'_>, words: &[u32])
    ensures { (text : ℕ → List ℕ) → ((w : ℕ) (p : P) → P.from_gives w p → P.output p ≡ text w) → Says page.old (flat_map text words.now) page.new }
{
    for word in words {
        P::from(*word).print(page);
    }
}
