// made by tools/generate from kinds.txt
// Judging, by the number of a kind and for each kind by itself.
ghost use Rattle.door.specs.Meaning.Exports.{JudgeCalled};

#[unsafe(no_mangle)]
pub extern "C" fn yugerzat_judge(kind: u32, src: &[u8], at: usize, info: &mut [u64]) -> u32
    ensures { JudgeCalled kind src.now at info.old result info.new }
{
    door::judge::yugerzat_judge(kind, src, at, info)
}

#[unsafe(no_mangle)]
pub extern "C" fn yugerzat_judge_bool(src: &[u8], at: usize, info: &mut [u64]) -> u32
    ensures { JudgeCalled 0 src.now at info.old result info.new }
{
    door::judge::yugerzat_judge_bool(src, at, info)
}

#[unsafe(no_mangle)]
pub extern "C" fn yugerzat_judge_i32(src: &[u8], at: usize, info: &mut [u64]) -> u32
    ensures { JudgeCalled 1 src.now at info.old result info.new }
{
    door::judge::yugerzat_judge_i32(src, at, info)
}

#[unsafe(no_mangle)]
pub extern "C" fn yugerzat_judge_i64(src: &[u8], at: usize, info: &mut [u64]) -> u32
    ensures { JudgeCalled 2 src.now at info.old result info.new }
{
    door::judge::yugerzat_judge_i64(src, at, info)
}

#[unsafe(no_mangle)]
pub extern "C" fn yugerzat_judge_u32(src: &[u8], at: usize, info: &mut [u64]) -> u32
    ensures { JudgeCalled 3 src.now at info.old result info.new }
{
    door::judge::yugerzat_judge_u32(src, at, info)
}

#[unsafe(no_mangle)]
pub extern "C" fn yugerzat_judge_u64(src: &[u8], at: usize, info: &mut [u64]) -> u32
    ensures { JudgeCalled 4 src.now at info.old result info.new }
{
    door::judge::yugerzat_judge_u64(src, at, info)
}

#[unsafe(no_mangle)]
pub extern "C" fn yugerzat_judge_eight(src: &[u8], at: usize, info: &mut [u64]) -> u32
    ensures { JudgeCalled 5 src.now at info.old result info.new }
{
    door::judge::yugerzat_judge_eight(src, at, info)
}

#[unsafe(no_mangle)]
pub extern "C" fn yugerzat_judge_opaque(src: &[u8], at: usize, info: &mut [u64]) -> u32
    ensures { JudgeCalled 6 src.now at info.old result info.new }
{
    door::judge::yugerzat_judge_opaque(src, at, info)
}

#[unsafe(no_mangle)]
pub extern "C" fn yugerzat_judge_nfsstring(src: &[u8], at: usize, info: &mut [u64]) -> u32
    ensures { JudgeCalled 7 src.now at info.old result info.new }
{
    door::judge::yugerzat_judge_nfsstring(src, at, info)
}

#[unsafe(no_mangle)]
pub extern "C" fn yugerzat_judge_words(src: &[u8], at: usize, info: &mut [u64]) -> u32
    ensures { JudgeCalled 8 src.now at info.old result info.new }
{
    door::judge::yugerzat_judge_words(src, at, info)
}

#[unsafe(no_mangle)]
pub extern "C" fn yugerzat_judge_msg_type(src: &[u8], at: usize, info: &mut [u64]) -> u32
    ensures { JudgeCalled 9 src.now at info.old result info.new }
{
    door::judge::yugerzat_judge_msg_type(src, at, info)
}

#[unsafe(no_mangle)]
pub extern "C" fn yugerzat_judge_reply_stat(src: &[u8], at: usize, info: &mut [u64]) -> u32
    ensures { JudgeCalled 10 src.now at info.old result info.new }
{
    door::judge::yugerzat_judge_reply_stat(src, at, info)
}

#[unsafe(no_mangle)]
pub extern "C" fn yugerzat_judge_accept_stat(src: &[u8], at: usize, info: &mut [u64]) -> u32
    ensures { JudgeCalled 11 src.now at info.old result info.new }
{
    door::judge::yugerzat_judge_accept_stat(src, at, info)
}

#[unsafe(no_mangle)]
pub extern "C" fn yugerzat_judge_reject_stat(src: &[u8], at: usize, info: &mut [u64]) -> u32
    ensures { JudgeCalled 12 src.now at info.old result info.new }
{
    door::judge::yugerzat_judge_reject_stat(src, at, info)
}

#[unsafe(no_mangle)]
pub extern "C" fn yugerzat_judge_auth_stat(src: &[u8], at: usize, info: &mut [u64]) -> u32
    ensures { JudgeCalled 13 src.now at info.old result info.new }
{
    door::judge::yugerzat_judge_auth_stat(src, at, info)
}

#[unsafe(no_mangle)]
pub extern "C" fn yugerzat_judge_auth_flavor(src: &[u8], at: usize, info: &mut [u64]) -> u32
    ensures { JudgeCalled 14 src.now at info.old result info.new }
{
    door::judge::yugerzat_judge_auth_flavor(src, at, info)
}

#[unsafe(no_mangle)]
pub extern "C" fn yugerzat_judge_time_how(src: &[u8], at: usize, info: &mut [u64]) -> u32
    ensures { JudgeCalled 15 src.now at info.old result info.new }
{
    door::judge::yugerzat_judge_time_how(src, at, info)
}

#[unsafe(no_mangle)]
pub extern "C" fn yugerzat_judge_nfsstat3(src: &[u8], at: usize, info: &mut [u64]) -> u32
    ensures { JudgeCalled 16 src.now at info.old result info.new }
{
    door::judge::yugerzat_judge_nfsstat3(src, at, info)
}

#[unsafe(no_mangle)]
pub extern "C" fn yugerzat_judge_ftype3(src: &[u8], at: usize, info: &mut [u64]) -> u32
    ensures { JudgeCalled 17 src.now at info.old result info.new }
{
    door::judge::yugerzat_judge_ftype3(src, at, info)
}

#[unsafe(no_mangle)]
pub extern "C" fn yugerzat_judge_auth_unix(src: &[u8], at: usize, info: &mut [u64]) -> u32
    ensures { JudgeCalled 18 src.now at info.old result info.new }
{
    door::judge::yugerzat_judge_auth_unix(src, at, info)
}

#[unsafe(no_mangle)]
pub extern "C" fn yugerzat_judge_opaque_auth(src: &[u8], at: usize, info: &mut [u64]) -> u32
    ensures { JudgeCalled 19 src.now at info.old result info.new }
{
    door::judge::yugerzat_judge_opaque_auth(src, at, info)
}

#[unsafe(no_mangle)]
pub extern "C" fn yugerzat_judge_rpc_msg(src: &[u8], at: usize, info: &mut [u64]) -> u32
    ensures { JudgeCalled 20 src.now at info.old result info.new }
{
    door::judge::yugerzat_judge_rpc_msg(src, at, info)
}

#[unsafe(no_mangle)]
pub extern "C" fn yugerzat_judge_rpc_body(src: &[u8], at: usize, info: &mut [u64]) -> u32
    ensures { JudgeCalled 21 src.now at info.old result info.new }
{
    door::judge::yugerzat_judge_rpc_body(src, at, info)
}

#[unsafe(no_mangle)]
pub extern "C" fn yugerzat_judge_call_body(src: &[u8], at: usize, info: &mut [u64]) -> u32
    ensures { JudgeCalled 22 src.now at info.old result info.new }
{
    door::judge::yugerzat_judge_call_body(src, at, info)
}

#[unsafe(no_mangle)]
pub extern "C" fn yugerzat_judge_reply_body(src: &[u8], at: usize, info: &mut [u64]) -> u32
    ensures { JudgeCalled 23 src.now at info.old result info.new }
{
    door::judge::yugerzat_judge_reply_body(src, at, info)
}

#[unsafe(no_mangle)]
pub extern "C" fn yugerzat_judge_accepted_reply(src: &[u8], at: usize, info: &mut [u64]) -> u32
    ensures { JudgeCalled 24 src.now at info.old result info.new }
{
    door::judge::yugerzat_judge_accepted_reply(src, at, info)
}

#[unsafe(no_mangle)]
pub extern "C" fn yugerzat_judge_accept_body(src: &[u8], at: usize, info: &mut [u64]) -> u32
    ensures { JudgeCalled 25 src.now at info.old result info.new }
{
    door::judge::yugerzat_judge_accept_body(src, at, info)
}

#[unsafe(no_mangle)]
pub extern "C" fn yugerzat_judge_rejected_reply(src: &[u8], at: usize, info: &mut [u64]) -> u32
    ensures { JudgeCalled 26 src.now at info.old result info.new }
{
    door::judge::yugerzat_judge_rejected_reply(src, at, info)
}

#[unsafe(no_mangle)]
pub extern "C" fn yugerzat_judge_mismatch_info(src: &[u8], at: usize, info: &mut [u64]) -> u32
    ensures { JudgeCalled 27 src.now at info.old result info.new }
{
    door::judge::yugerzat_judge_mismatch_info(src, at, info)
}

#[unsafe(no_mangle)]
pub extern "C" fn yugerzat_judge_specdata3(src: &[u8], at: usize, info: &mut [u64]) -> u32
    ensures { JudgeCalled 28 src.now at info.old result info.new }
{
    door::judge::yugerzat_judge_specdata3(src, at, info)
}

#[unsafe(no_mangle)]
pub extern "C" fn yugerzat_judge_nfs_fh3(src: &[u8], at: usize, info: &mut [u64]) -> u32
    ensures { JudgeCalled 29 src.now at info.old result info.new }
{
    door::judge::yugerzat_judge_nfs_fh3(src, at, info)
}

#[unsafe(no_mangle)]
pub extern "C" fn yugerzat_judge_nfstime3(src: &[u8], at: usize, info: &mut [u64]) -> u32
    ensures { JudgeCalled 30 src.now at info.old result info.new }
{
    door::judge::yugerzat_judge_nfstime3(src, at, info)
}

#[unsafe(no_mangle)]
pub extern "C" fn yugerzat_judge_fattr3(src: &[u8], at: usize, info: &mut [u64]) -> u32
    ensures { JudgeCalled 31 src.now at info.old result info.new }
{
    door::judge::yugerzat_judge_fattr3(src, at, info)
}

#[unsafe(no_mangle)]
pub extern "C" fn yugerzat_judge_fsinfo3(src: &[u8], at: usize, info: &mut [u64]) -> u32
    ensures { JudgeCalled 32 src.now at info.old result info.new }
{
    door::judge::yugerzat_judge_fsinfo3(src, at, info)
}

#[unsafe(no_mangle)]
pub extern "C" fn yugerzat_judge_wcc_attr(src: &[u8], at: usize, info: &mut [u64]) -> u32
    ensures { JudgeCalled 33 src.now at info.old result info.new }
{
    door::judge::yugerzat_judge_wcc_attr(src, at, info)
}

#[unsafe(no_mangle)]
pub extern "C" fn yugerzat_judge_pre_op_attr(src: &[u8], at: usize, info: &mut [u64]) -> u32
    ensures { JudgeCalled 34 src.now at info.old result info.new }
{
    door::judge::yugerzat_judge_pre_op_attr(src, at, info)
}

#[unsafe(no_mangle)]
pub extern "C" fn yugerzat_judge_post_op_attr(src: &[u8], at: usize, info: &mut [u64]) -> u32
    ensures { JudgeCalled 35 src.now at info.old result info.new }
{
    door::judge::yugerzat_judge_post_op_attr(src, at, info)
}

#[unsafe(no_mangle)]
pub extern "C" fn yugerzat_judge_wcc_data(src: &[u8], at: usize, info: &mut [u64]) -> u32
    ensures { JudgeCalled 36 src.now at info.old result info.new }
{
    door::judge::yugerzat_judge_wcc_data(src, at, info)
}

#[unsafe(no_mangle)]
pub extern "C" fn yugerzat_judge_post_op_fh3(src: &[u8], at: usize, info: &mut [u64]) -> u32
    ensures { JudgeCalled 37 src.now at info.old result info.new }
{
    door::judge::yugerzat_judge_post_op_fh3(src, at, info)
}

#[unsafe(no_mangle)]
pub extern "C" fn yugerzat_judge_set_mode3(src: &[u8], at: usize, info: &mut [u64]) -> u32
    ensures { JudgeCalled 38 src.now at info.old result info.new }
{
    door::judge::yugerzat_judge_set_mode3(src, at, info)
}

#[unsafe(no_mangle)]
pub extern "C" fn yugerzat_judge_set_uid3(src: &[u8], at: usize, info: &mut [u64]) -> u32
    ensures { JudgeCalled 39 src.now at info.old result info.new }
{
    door::judge::yugerzat_judge_set_uid3(src, at, info)
}

#[unsafe(no_mangle)]
pub extern "C" fn yugerzat_judge_set_gid3(src: &[u8], at: usize, info: &mut [u64]) -> u32
    ensures { JudgeCalled 40 src.now at info.old result info.new }
{
    door::judge::yugerzat_judge_set_gid3(src, at, info)
}

#[unsafe(no_mangle)]
pub extern "C" fn yugerzat_judge_set_size3(src: &[u8], at: usize, info: &mut [u64]) -> u32
    ensures { JudgeCalled 41 src.now at info.old result info.new }
{
    door::judge::yugerzat_judge_set_size3(src, at, info)
}

#[unsafe(no_mangle)]
pub extern "C" fn yugerzat_judge_set_atime(src: &[u8], at: usize, info: &mut [u64]) -> u32
    ensures { JudgeCalled 42 src.now at info.old result info.new }
{
    door::judge::yugerzat_judge_set_atime(src, at, info)
}

#[unsafe(no_mangle)]
pub extern "C" fn yugerzat_judge_set_mtime(src: &[u8], at: usize, info: &mut [u64]) -> u32
    ensures { JudgeCalled 43 src.now at info.old result info.new }
{
    door::judge::yugerzat_judge_set_mtime(src, at, info)
}

#[unsafe(no_mangle)]
pub extern "C" fn yugerzat_judge_sattr3(src: &[u8], at: usize, info: &mut [u64]) -> u32
    ensures { JudgeCalled 44 src.now at info.old result info.new }
{
    door::judge::yugerzat_judge_sattr3(src, at, info)
}

#[unsafe(no_mangle)]
pub extern "C" fn yugerzat_judge_diropargs3(src: &[u8], at: usize, info: &mut [u64]) -> u32
    ensures { JudgeCalled 45 src.now at info.old result info.new }
{
    door::judge::yugerzat_judge_diropargs3(src, at, info)
}

#[unsafe(no_mangle)]
pub extern "C" fn yugerzat_judge_symlinkdata3(src: &[u8], at: usize, info: &mut [u64]) -> u32
    ensures { JudgeCalled 46 src.now at info.old result info.new }
{
    door::judge::yugerzat_judge_symlinkdata3(src, at, info)
}

#[unsafe(no_mangle)]
pub extern "C" fn yugerzat_judge_stable_how(src: &[u8], at: usize, info: &mut [u64]) -> u32
    ensures { JudgeCalled 47 src.now at info.old result info.new }
{
    door::judge::yugerzat_judge_stable_how(src, at, info)
}

#[unsafe(no_mangle)]
pub extern "C" fn yugerzat_judge_sattrguard3(src: &[u8], at: usize, info: &mut [u64]) -> u32
    ensures { JudgeCalled 48 src.now at info.old result info.new }
{
    door::judge::yugerzat_judge_sattrguard3(src, at, info)
}

#[unsafe(no_mangle)]
pub extern "C" fn yugerzat_judge_getattr3args(src: &[u8], at: usize, info: &mut [u64]) -> u32
    ensures { JudgeCalled 49 src.now at info.old result info.new }
{
    door::judge::yugerzat_judge_getattr3args(src, at, info)
}

#[unsafe(no_mangle)]
pub extern "C" fn yugerzat_judge_getattr3res(src: &[u8], at: usize, info: &mut [u64]) -> u32
    ensures { JudgeCalled 50 src.now at info.old result info.new }
{
    door::judge::yugerzat_judge_getattr3res(src, at, info)
}

#[unsafe(no_mangle)]
pub extern "C" fn yugerzat_judge_setattr3args(src: &[u8], at: usize, info: &mut [u64]) -> u32
    ensures { JudgeCalled 51 src.now at info.old result info.new }
{
    door::judge::yugerzat_judge_setattr3args(src, at, info)
}

#[unsafe(no_mangle)]
pub extern "C" fn yugerzat_judge_setattr3res(src: &[u8], at: usize, info: &mut [u64]) -> u32
    ensures { JudgeCalled 52 src.now at info.old result info.new }
{
    door::judge::yugerzat_judge_setattr3res(src, at, info)
}

#[unsafe(no_mangle)]
pub extern "C" fn yugerzat_judge_lookup3args(src: &[u8], at: usize, info: &mut [u64]) -> u32
    ensures { JudgeCalled 53 src.now at info.old result info.new }
{
    door::judge::yugerzat_judge_lookup3args(src, at, info)
}

#[unsafe(no_mangle)]
pub extern "C" fn yugerzat_judge_lookup3res(src: &[u8], at: usize, info: &mut [u64]) -> u32
    ensures { JudgeCalled 54 src.now at info.old result info.new }
{
    door::judge::yugerzat_judge_lookup3res(src, at, info)
}

#[unsafe(no_mangle)]
pub extern "C" fn yugerzat_judge_read3args(src: &[u8], at: usize, info: &mut [u64]) -> u32
    ensures { JudgeCalled 55 src.now at info.old result info.new }
{
    door::judge::yugerzat_judge_read3args(src, at, info)
}

#[unsafe(no_mangle)]
pub extern "C" fn yugerzat_judge_read3res(src: &[u8], at: usize, info: &mut [u64]) -> u32
    ensures { JudgeCalled 56 src.now at info.old result info.new }
{
    door::judge::yugerzat_judge_read3res(src, at, info)
}

#[unsafe(no_mangle)]
pub extern "C" fn yugerzat_judge_write3args(src: &[u8], at: usize, info: &mut [u64]) -> u32
    ensures { JudgeCalled 57 src.now at info.old result info.new }
{
    door::judge::yugerzat_judge_write3args(src, at, info)
}

#[unsafe(no_mangle)]
pub extern "C" fn yugerzat_judge_write3res(src: &[u8], at: usize, info: &mut [u64]) -> u32
    ensures { JudgeCalled 58 src.now at info.old result info.new }
{
    door::judge::yugerzat_judge_write3res(src, at, info)
}

#[unsafe(no_mangle)]
pub extern "C" fn yugerzat_judge_current_accept_stat(src: &[u8], at: usize, info: &mut [u64]) -> u32
    ensures { JudgeCalled 59 src.now at info.old result info.new }
{
    door::judge::yugerzat_judge_current_accept_stat(src, at, info)
}

#[unsafe(no_mangle)]
pub extern "C" fn yugerzat_judge_current_auth_stat(src: &[u8], at: usize, info: &mut [u64]) -> u32
    ensures { JudgeCalled 60 src.now at info.old result info.new }
{
    door::judge::yugerzat_judge_current_auth_stat(src, at, info)
}

#[unsafe(no_mangle)]
pub extern "C" fn yugerzat_judge_current_accept_body(src: &[u8], at: usize, info: &mut [u64]) -> u32
    ensures { JudgeCalled 61 src.now at info.old result info.new }
{
    door::judge::yugerzat_judge_current_accept_body(src, at, info)
}

#[unsafe(no_mangle)]
pub extern "C" fn yugerzat_judge_current_accepted_reply(
    src: &[u8],
    at: usize,
    info: &mut [u64],
) -> u32
    ensures { JudgeCalled 62 src.now at info.old result info.new }
{
    door::judge::yugerzat_judge_current_accepted_reply(src, at, info)
}

#[unsafe(no_mangle)]
pub extern "C" fn yugerzat_judge_current_rejected_reply(
    src: &[u8],
    at: usize,
    info: &mut [u64],
) -> u32
    ensures { JudgeCalled 63 src.now at info.old result info.new }
{
    door::judge::yugerzat_judge_current_rejected_reply(src, at, info)
}

#[unsafe(no_mangle)]
pub extern "C" fn yugerzat_judge_current_reply_body(src: &[u8], at: usize, info: &mut [u64]) -> u32
    ensures { JudgeCalled 64 src.now at info.old result info.new }
{
    door::judge::yugerzat_judge_current_reply_body(src, at, info)
}

#[unsafe(no_mangle)]
pub extern "C" fn yugerzat_judge_current_rpc_body(src: &[u8], at: usize, info: &mut [u64]) -> u32
    ensures { JudgeCalled 65 src.now at info.old result info.new }
{
    door::judge::yugerzat_judge_current_rpc_body(src, at, info)
}

#[unsafe(no_mangle)]
pub extern "C" fn yugerzat_judge_current_rpc_msg(src: &[u8], at: usize, info: &mut [u64]) -> u32
    ensures { JudgeCalled 66 src.now at info.old result info.new }
{
    door::judge::yugerzat_judge_current_rpc_msg(src, at, info)
}

#[unsafe(no_mangle)]
pub extern "C" fn yugerzat_judge_dirpath(src: &[u8], at: usize, info: &mut [u64]) -> u32
    ensures { JudgeCalled 67 src.now at info.old result info.new }
{
    door::judge::yugerzat_judge_dirpath(src, at, info)
}

#[unsafe(no_mangle)]
pub extern "C" fn yugerzat_judge_mountstat3(src: &[u8], at: usize, info: &mut [u64]) -> u32
    ensures { JudgeCalled 68 src.now at info.old result info.new }
{
    door::judge::yugerzat_judge_mountstat3(src, at, info)
}

#[unsafe(no_mangle)]
pub extern "C" fn yugerzat_judge_mountres3(src: &[u8], at: usize, info: &mut [u64]) -> u32
    ensures { JudgeCalled 69 src.now at info.old result info.new }
{
    door::judge::yugerzat_judge_mountres3(src, at, info)
}

#[unsafe(no_mangle)]
pub extern "C" fn yugerzat_judge_exports(src: &[u8], at: usize, info: &mut [u64]) -> u32
    ensures { JudgeCalled 70 src.now at info.old result info.new }
{
    door::judge::yugerzat_judge_exports(src, at, info)
}

#[unsafe(no_mangle)]
pub extern "C" fn yugerzat_judge_mapping(src: &[u8], at: usize, info: &mut [u64]) -> u32
    ensures { JudgeCalled 71 src.now at info.old result info.new }
{
    door::judge::yugerzat_judge_mapping(src, at, info)
}
