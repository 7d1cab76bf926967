// A place of the table: a notice, and the link to the place behind it in its chain.
use notice::Notice;

#[derive(Clone, Copy)]
pub struct Place {
    pub notice: Notice,
    pub next: u32,
}
