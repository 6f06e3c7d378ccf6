// For the crates above, and no door for users: kinds of a message whose length and start were tested already, and kinds laid at the front
// of a lent buffer whose room was. Each is total all the same, and exact; it only leaves out refusals 3 and 9.
pub mod set;
