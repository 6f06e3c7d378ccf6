// Authentication (RFC 5531, section 8.2 and appendix A).
ghost use Rattle.std.specs.Prelude.{◌≡◌};
ghost use Rattle.rpc.specs.Meaning.Closed.{flavor_number};
ghost use Rattle.rpc.specs.Meaning.Crate.{auth_stat_number};

use xdr::Piece;

#[derive(Clone, Copy)]
pub enum auth_flavor {
    AUTH_NULL,
    AUTH_UNIX,
    AUTH_SHORT,
    AUTH_DES,
}

// Why authentication failed.
#[derive(Clone, Copy)]
pub enum auth_stat {
    AUTH_BADCRED,
    AUTH_REJECTEDCRED,
    AUTH_BADVERF,
    AUTH_REJECTEDVERF,
    AUTH_TOOWEAK,
}

// A flavor, and bytes that only that flavor can read.
#[derive(Clone, Copy)]
pub struct opaque_auth {
    pub flavor: auth_flavor,
    pub body: Piece,
}

// What the body of an AUTH_UNIX credential says. `gids` is a piece that counts words.
#[derive(Clone, Copy)]
pub struct auth_unix {
    pub stamp: u32,
    pub machinename: Piece,
    pub uid: u32,
    pub gid: u32,
    pub gids: Piece,
}

impl auth_flavor {
    pub fn number(self) -> u32
        ensures { result ≡ flavor_number self }
    {
        match self {
            auth_flavor::AUTH_NULL => 0,
            auth_flavor::AUTH_UNIX => 1,
            auth_flavor::AUTH_SHORT => 2,
            auth_flavor::AUTH_DES => 3,
        }
    }
}

impl auth_stat {
    pub fn number(self) -> u32
        ensures { result ≡ auth_stat_number self }
    {
        match self {
            auth_stat::AUTH_BADCRED => 1,
            auth_stat::AUTH_REJECTEDCRED => 2,
            auth_stat::AUTH_BADVERF => 3,
            auth_stat::AUTH_REJECTEDVERF => 4,
            auth_stat::AUTH_TOOWEAK => 5,
        }
    }
}
