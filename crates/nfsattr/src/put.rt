// For the crates above, and no door for users: kinds laid at the front of a lent buffer, which is left as it was where there is no room. Each
// field's writer is lent the tail from its place on. Sizes of the kinds that have no constant one stand beside them.
pub mod attr;
pub mod stat;
