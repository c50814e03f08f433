// What can be printed.
ghost use Rattle.std.specs.Prelude.{ℕ, List};
ghost use Rattle.pages.specs.Pages.{Says};

use super::page::Page;

// What has a text, and prints exactly this. It cannot give up.
pub trait Print {
    ghost output: { Self → List ℕ };

    fn print(&self, page: &mut Page<'_>)
        ensures { Says page.old (output self.now) page.new };
}
