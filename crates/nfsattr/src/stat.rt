// The status that a result begins with (RFC 1813, section 2.5; section 2.6 says what each means).
ghost use Rattle.std.specs.Prelude.{◌≡◌, ◌≤◌};
ghost use Rattle.nfsattr.specs.Meaning.Stat.{fail_number, stat_number, failures, statuses};
ghost use Rattle.xdr.specs.Meaning.Views.{view_found};
ghost use Rattle.xdr.specs.Meaning.Combinators.{among};

// The 28 failures: a type of their own, so that the failing arm of a result can hold no success.
#[derive(Clone, Copy)]
pub enum nfsfail3 {
    NFS3ERR_PERM,
    NFS3ERR_NOENT,
    NFS3ERR_IO,
    NFS3ERR_NXIO,
    NFS3ERR_ACCES,
    NFS3ERR_EXIST,
    NFS3ERR_XDEV,
    NFS3ERR_NODEV,
    NFS3ERR_NOTDIR,
    NFS3ERR_ISDIR,
    NFS3ERR_INVAL,
    NFS3ERR_FBIG,
    NFS3ERR_NOSPC,
    NFS3ERR_ROFS,
    NFS3ERR_MLINK,
    NFS3ERR_NAMETOOLONG,
    NFS3ERR_NOTEMPTY,
    NFS3ERR_DQUOT,
    NFS3ERR_STALE,
    NFS3ERR_REMOTE,
    NFS3ERR_BADHANDLE,
    NFS3ERR_NOT_SYNC,
    NFS3ERR_BAD_COOKIE,
    NFS3ERR_NOTSUPP,
    NFS3ERR_TOOSMALL,
    NFS3ERR_SERVERFAULT,
    NFS3ERR_BADTYPE,
    NFS3ERR_JUKEBOX,
}

#[derive(Clone, Copy)]
pub enum nfsstat3 {
    NFS3_OK,
    Failed(nfsfail3),
}

impl nfsfail3 {
    pub fn number(self) -> u32
        ensures { result ≡ fail_number self }
    {
        match self {
            nfsfail3::NFS3ERR_PERM => 1,
            nfsfail3::NFS3ERR_NOENT => 2,
            nfsfail3::NFS3ERR_IO => 5,
            nfsfail3::NFS3ERR_NXIO => 6,
            nfsfail3::NFS3ERR_ACCES => 13,
            nfsfail3::NFS3ERR_EXIST => 17,
            nfsfail3::NFS3ERR_XDEV => 18,
            nfsfail3::NFS3ERR_NODEV => 19,
            nfsfail3::NFS3ERR_NOTDIR => 20,
            nfsfail3::NFS3ERR_ISDIR => 21,
            nfsfail3::NFS3ERR_INVAL => 22,
            nfsfail3::NFS3ERR_FBIG => 27,
            nfsfail3::NFS3ERR_NOSPC => 28,
            nfsfail3::NFS3ERR_ROFS => 30,
            nfsfail3::NFS3ERR_MLINK => 31,
            nfsfail3::NFS3ERR_NAMETOOLONG => 63,
            nfsfail3::NFS3ERR_NOTEMPTY => 66,
            nfsfail3::NFS3ERR_DQUOT => 69,
            nfsfail3::NFS3ERR_STALE => 70,
            nfsfail3::NFS3ERR_REMOTE => 71,
            nfsfail3::NFS3ERR_BADHANDLE => 10001,
            nfsfail3::NFS3ERR_NOT_SYNC => 10002,
            nfsfail3::NFS3ERR_BAD_COOKIE => 10003,
            nfsfail3::NFS3ERR_NOTSUPP => 10004,
            nfsfail3::NFS3ERR_TOOSMALL => 10005,
            nfsfail3::NFS3ERR_SERVERFAULT => 10006,
            nfsfail3::NFS3ERR_BADTYPE => 10007,
            nfsfail3::NFS3ERR_JUKEBOX => 10008,
        }
    }

    pub fn of(v: u32) -> Option<nfsfail3>
        ensures { view_found result ≡ among fail_number failures v }
    {
        let found = nfsstat3::of(v);
        let Some(status) = found else {
            return None;
        };
        match status {
            nfsstat3::NFS3_OK => None,
            nfsstat3::Failed(f) => Some(f),
        }
    }

    // which failure of the run 17 to 22
    fn exist_to_inval(v: u32) -> nfsfail3
        requires { (17 ≤ v) × (v ≤ 22) }
        ensures { v ≡ fail_number result }
    {
        match v {
            17 => nfsfail3::NFS3ERR_EXIST,
            18 => nfsfail3::NFS3ERR_XDEV,
            19 => nfsfail3::NFS3ERR_NODEV,
            20 => nfsfail3::NFS3ERR_NOTDIR,
            21 => nfsfail3::NFS3ERR_ISDIR,
            _ => nfsfail3::NFS3ERR_INVAL,
        }
    }

    // which failure of the run 10001 to 10008
    fn badhandle_to_jukebox(v: u32) -> nfsfail3
        requires { (10001 ≤ v) × (v ≤ 10008) }
        ensures { v ≡ fail_number result }
    {
        match v {
            10001 => nfsfail3::NFS3ERR_BADHANDLE,
            10002 => nfsfail3::NFS3ERR_NOT_SYNC,
            10003 => nfsfail3::NFS3ERR_BAD_COOKIE,
            10004 => nfsfail3::NFS3ERR_NOTSUPP,
            10005 => nfsfail3::NFS3ERR_TOOSMALL,
            10006 => nfsfail3::NFS3ERR_SERVERFAULT,
            10007 => nfsfail3::NFS3ERR_BADTYPE,
            _ => nfsfail3::NFS3ERR_JUKEBOX,
        }
    }
}

impl nfsstat3 {
    pub const SIZE: usize = 4;

    pub fn number(self) -> u32
        ensures { result ≡ stat_number self }
    {
        match self {
            nfsstat3::NFS3_OK => 0,
            nfsstat3::Failed(f) => f.number(),
        }
    }

    // A line for each run of docs/SCOPE.md, Closed lists, in its order.
    pub fn of(v: u32) -> Option<nfsstat3>
        ensures { view_found result ≡ among stat_number statuses v }
    {
        let failure = match v {
            0 => return Some(nfsstat3::NFS3_OK),
            1 => nfsfail3::NFS3ERR_PERM,
            2 => nfsfail3::NFS3ERR_NOENT,
            5 => nfsfail3::NFS3ERR_IO,
            6 => nfsfail3::NFS3ERR_NXIO,
            13 => nfsfail3::NFS3ERR_ACCES,
            17..=22 => nfsfail3::exist_to_inval(v),
            27 => nfsfail3::NFS3ERR_FBIG,
            28 => nfsfail3::NFS3ERR_NOSPC,
            30 => nfsfail3::NFS3ERR_ROFS,
            31 => nfsfail3::NFS3ERR_MLINK,
            63 => nfsfail3::NFS3ERR_NAMETOOLONG,
            66 => nfsfail3::NFS3ERR_NOTEMPTY,
            69 => nfsfail3::NFS3ERR_DQUOT,
            70 => nfsfail3::NFS3ERR_STALE,
            71 => nfsfail3::NFS3ERR_REMOTE,
            10001..=10008 => nfsfail3::badhandle_to_jukebox(v),
            _ => return None,
        };
        Some(nfsstat3::Failed(failure))
    }
}
