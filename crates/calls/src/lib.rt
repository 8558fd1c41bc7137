// Document 01: the six calls on a table. Any table, any handle, any lengths and bytes: no call asks anything of its caller.
// What four of them begin with is written out in each: SCOPE wants the look-up taken apart there.

#![tactic(auto)]

pub use call_close::close;
pub use call_draw::draw;
pub use call_fresh_draw::fresh_draw;
pub use call_inquire::inquire;
pub use call_open::open;
pub use call_reseed::reseed;
