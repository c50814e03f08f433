// Text on a page of lent memory. Saying more than fits is no error: what fits stands there, and all is counted.
#![tactic(auto)]

mod each;
mod page;
mod print;

pub use each::print_each;
pub use page::Page;
pub use print::Print;
