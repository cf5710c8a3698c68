// Who may read and write which bytes: the entries that are lent, and what they give a party. Nothing here is open to callers: the
// expansion asks. Assumes nothing.
#![tactic(auto)]

pub mod cover;
pub mod entries;

// What is wrong with a call's party and the entries.
#[derive(Clone, Copy)]
pub enum ClaimRefusal {
    // 21: more than 16 entries, or one past the window
    BadEntries,
    // 10: the call's own party is none, at place 0, or an entry is cut or has a field outside its values
    BadField { place: usize },
}
