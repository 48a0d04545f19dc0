//! The closer: the certificate of a day's record, from where its campaigns are at the end.
//!
//! The certificate is defined in `specs/Closing`; that it meets the rules of every certificate, so that a checker
//! accepts it, is a clause of `close`. `specs/Choosing` says of a record which offer the rule chooses for each
//! impression; what makes records and what bounds them cite it.
//!
//! Uses `adx_units`, `campaign_book`, `bid_record` and `dual_cert`.
#![tactic(auto)]

mod alphas;
mod betas;
mod closer;
mod law;
mod money;

pub use closer::close;
pub use law::one_closing;
pub use money::moneys_of;
