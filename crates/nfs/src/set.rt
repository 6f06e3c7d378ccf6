// What SETATTR, CREATE, MKDIR, SYMLINK and MKNOD set (RFC 1813, section 2.6).
ghost use Rattle.std.specs.Prelude.{◌≡◌};
ghost use Rattle.nfs.specs.Meaning.Set.{how_number, hows, time_how};
ghost use Rattle.xdr.specs.Meaning.Views.{view_found};
ghost use Rattle.xdr.specs.Meaning.Combinators.{among};
ghost use Rattle.xdr.specs.Meaning.Sizes.{OfSize};

use crate::change::{set_gid3, set_mode3, set_size3, set_uid3};
use nfsattr::attr::nfstime3;

// The tag of `set_atime` and `set_mtime`.
#[derive(Clone, Copy)]
pub enum _time_how {
    DONT_CHANGE,
    SET_TO_SERVER_TIME,
    SET_TO_CLIENT_TIME,
}

impl _time_how {
    pub const SIZE: usize = 4;

    // The contract holds the constant to the bytes that every _time_how has.
    pub fn size() -> usize
        ensures { OfSize result time_how }
    {
        _time_how::SIZE
    }

    pub fn number(self) -> u32
        ensures { result ≡ how_number self }
    {
        match self {
            _time_how::DONT_CHANGE => 0,
            _time_how::SET_TO_SERVER_TIME => 1,
            _time_how::SET_TO_CLIENT_TIME => 2,
        }
    }

    pub fn of(v: u32) -> Option<_time_how>
        ensures { view_found result ≡ among how_number hows v }
    {
        match v {
            0 => Some(_time_how::DONT_CHANGE),
            1 => Some(_time_how::SET_TO_SERVER_TIME),
            2 => Some(_time_how::SET_TO_CLIENT_TIME),
            _ => None,
        }
    }
}

#[derive(Clone, Copy)]
pub enum set_atime {
    DONT_CHANGE,
    SET_TO_SERVER_TIME,
    SET_TO_CLIENT_TIME(nfstime3),
}

#[derive(Clone, Copy)]
pub enum set_mtime {
    DONT_CHANGE,
    SET_TO_SERVER_TIME,
    SET_TO_CLIENT_TIME(nfstime3),
}

#[derive(Clone, Copy)]
pub struct sattr3 {
    pub mode: set_mode3,
    pub uid: set_uid3,
    pub gid: set_gid3,
    pub size: set_size3,
    pub atime: set_atime,
    pub mtime: set_mtime,
}
