// The table of the twelve sectors of a line, and what every call on one sector tests before it looks at it.
//
// The contracts cite `specs/Layout.antt`, the paper's table, and `specs/Asked.antt`, the refusals in the paper's order.
// `specs/Place.antt` says where a byte of the documentation sector lies, for the crates above. All functions are inner.
#![tactic(auto)]

pub mod asked;
pub mod layout;
