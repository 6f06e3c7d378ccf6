// made by tools/generate from kinds.txt
// Rewriting, by the number of a kind and for each kind by itself.
ghost use Rattle.door.specs.Meaning.Exports.{RewriteCalled};

#[unsafe(no_mangle)]
pub extern "C" fn yugerzat_rewrite(
    kind: u32,
    src: &[u8],
    at: usize,
    out: &mut [u8],
    info: &mut [u64],
) -> u32
    ensures { RewriteCalled kind src.now at out.old info.old result out.new info.new }
{
    door::rewrite::yugerzat_rewrite(kind, src, at, out, info)
}

#[unsafe(no_mangle)]
pub extern "C" fn yugerzat_rewrite_bool(
    src: &[u8],
    at: usize,
    out: &mut [u8],
    info: &mut [u64],
) -> u32
    ensures { RewriteCalled 0 src.now at out.old info.old result out.new info.new }
{
    door::rewrite::yugerzat_rewrite_bool(src, at, out, info)
}

#[unsafe(no_mangle)]
pub extern "C" fn yugerzat_rewrite_i32(
    src: &[u8],
    at: usize,
    out: &mut [u8],
    info: &mut [u64],
) -> u32
    ensures { RewriteCalled 1 src.now at out.old info.old result out.new info.new }
{
    door::rewrite::yugerzat_rewrite_i32(src, at, out, info)
}

#[unsafe(no_mangle)]
pub extern "C" fn yugerzat_rewrite_i64(
    src: &[u8],
    at: usize,
    out: &mut [u8],
    info: &mut [u64],
) -> u32
    ensures { RewriteCalled 2 src.now at out.old info.old result out.new info.new }
{
    door::rewrite::yugerzat_rewrite_i64(src, at, out, info)
}

#[unsafe(no_mangle)]
pub extern "C" fn yugerzat_rewrite_u32(
    src: &[u8],
    at: usize,
    out: &mut [u8],
    info: &mut [u64],
) -> u32
    ensures { RewriteCalled 3 src.now at out.old info.old result out.new info.new }
{
    door::rewrite::yugerzat_rewrite_u32(src, at, out, info)
}

#[unsafe(no_mangle)]
pub extern "C" fn yugerzat_rewrite_u64(
    src: &[u8],
    at: usize,
    out: &mut [u8],
    info: &mut [u64],
) -> u32
    ensures { RewriteCalled 4 src.now at out.old info.old result out.new info.new }
{
    door::rewrite::yugerzat_rewrite_u64(src, at, out, info)
}

#[unsafe(no_mangle)]
pub extern "C" fn yugerzat_rewrite_eight(
    src: &[u8],
    at: usize,
    out: &mut [u8],
    info: &mut [u64],
) -> u32
    ensures { RewriteCalled 5 src.now at out.old info.old result out.new info.new }
{
    door::rewrite::yugerzat_rewrite_eight(src, at, out, info)
}

#[unsafe(no_mangle)]
pub extern "C" fn yugerzat_rewrite_opaque(
    src: &[u8],
    at: usize,
    out: &mut [u8],
    info: &mut [u64],
) -> u32
    ensures { RewriteCalled 6 src.now at out.old info.old result out.new info.new }
{
    door::rewrite::yugerzat_rewrite_opaque(src, at, out, info)
}

#[unsafe(no_mangle)]
pub extern "C" fn yugerzat_rewrite_nfsstring(
    src: &[u8],
    at: usize,
    out: &mut [u8],
    info: &mut [u64],
) -> u32
    ensures { RewriteCalled 7 src.now at out.old info.old result out.new info.new }
{
    door::rewrite::yugerzat_rewrite_nfsstring(src, at, out, info)
}

#[unsafe(no_mangle)]
pub extern "C" fn yugerzat_rewrite_words(
    src: &[u8],
    at: usize,
    out: &mut [u8],
    info: &mut [u64],
) -> u32
    ensures { RewriteCalled 8 src.now at out.old info.old result out.new info.new }
{
    door::rewrite::yugerzat_rewrite_words(src, at, out, info)
}

#[unsafe(no_mangle)]
pub extern "C" fn yugerzat_rewrite_msg_type(
    src: &[u8],
    at: usize,
    out: &mut [u8],
    info: &mut [u64],
) -> u32
    ensures { RewriteCalled 9 src.now at out.old info.old result out.new info.new }
{
    door::rewrite::yugerzat_rewrite_msg_type(src, at, out, info)
}

#[unsafe(no_mangle)]
pub extern "C" fn yugerzat_rewrite_reply_stat(
    src: &[u8],
    at: usize,
    out: &mut [u8],
    info: &mut [u64],
) -> u32
    ensures { RewriteCalled 10 src.now at out.old info.old result out.new info.new }
{
    door::rewrite::yugerzat_rewrite_reply_stat(src, at, out, info)
}

#[unsafe(no_mangle)]
pub extern "C" fn yugerzat_rewrite_accept_stat(
    src: &[u8],
    at: usize,
    out: &mut [u8],
    info: &mut [u64],
) -> u32
    ensures { RewriteCalled 11 src.now at out.old info.old result out.new info.new }
{
    door::rewrite::yugerzat_rewrite_accept_stat(src, at, out, info)
}

#[unsafe(no_mangle)]
pub extern "C" fn yugerzat_rewrite_reject_stat(
    src: &[u8],
    at: usize,
    out: &mut [u8],
    info: &mut [u64],
) -> u32
    ensures { RewriteCalled 12 src.now at out.old info.old result out.new info.new }
{
    door::rewrite::yugerzat_rewrite_reject_stat(src, at, out, info)
}

#[unsafe(no_mangle)]
pub extern "C" fn yugerzat_rewrite_auth_stat(
    src: &[u8],
    at: usize,
    out: &mut [u8],
    info: &mut [u64],
) -> u32
    ensures { RewriteCalled 13 src.now at out.old info.old result out.new info.new }
{
    door::rewrite::yugerzat_rewrite_auth_stat(src, at, out, info)
}

#[unsafe(no_mangle)]
pub extern "C" fn yugerzat_rewrite_auth_flavor(
    src: &[u8],
    at: usize,
    out: &mut [u8],
    info: &mut [u64],
) -> u32
    ensures { RewriteCalled 14 src.now at out.old info.old result out.new info.new }
{
    door::rewrite::yugerzat_rewrite_auth_flavor(src, at, out, info)
}

#[unsafe(no_mangle)]
pub extern "C" fn yugerzat_rewrite_time_how(
    src: &[u8],
    at: usize,
    out: &mut [u8],
    info: &mut [u64],
) -> u32
    ensures { RewriteCalled 15 src.now at out.old info.old result out.new info.new }
{
    door::rewrite::yugerzat_rewrite_time_how(src, at, out, info)
}

#[unsafe(no_mangle)]
pub extern "C" fn yugerzat_rewrite_nfsstat3(
    src: &[u8],
    at: usize,
    out: &mut [u8],
    info: &mut [u64],
) -> u32
    ensures { RewriteCalled 16 src.now at out.old info.old result out.new info.new }
{
    door::rewrite::yugerzat_rewrite_nfsstat3(src, at, out, info)
}

#[unsafe(no_mangle)]
pub extern "C" fn yugerzat_rewrite_ftype3(
    src: &[u8],
    at: usize,
    out: &mut [u8],
    info: &mut [u64],
) -> u32
    ensures { RewriteCalled 17 src.now at out.old info.old result out.new info.new }
{
    door::rewrite::yugerzat_rewrite_ftype3(src, at, out, info)
}

#[unsafe(no_mangle)]
pub extern "C" fn yugerzat_rewrite_auth_unix(
    src: &[u8],
    at: usize,
    out: &mut [u8],
    info: &mut [u64],
) -> u32
    ensures { RewriteCalled 18 src.now at out.old info.old result out.new info.new }
{
    door::rewrite::yugerzat_rewrite_auth_unix(src, at, out, info)
}

#[unsafe(no_mangle)]
pub extern "C" fn yugerzat_rewrite_opaque_auth(
    src: &[u8],
    at: usize,
    out: &mut [u8],
    info: &mut [u64],
) -> u32
    ensures { RewriteCalled 19 src.now at out.old info.old result out.new info.new }
{
    door::rewrite::yugerzat_rewrite_opaque_auth(src, at, out, info)
}

#[unsafe(no_mangle)]
pub extern "C" fn yugerzat_rewrite_rpc_msg(
    src: &[u8],
    at: usize,
    out: &mut [u8],
    info: &mut [u64],
) -> u32
    ensures { RewriteCalled 20 src.now at out.old info.old result out.new info.new }
{
    door::rewrite::yugerzat_rewrite_rpc_msg(src, at, out, info)
}

#[unsafe(no_mangle)]
pub extern "C" fn yugerzat_rewrite_rpc_body(
    src: &[u8],
    at: usize,
    out: &mut [u8],
    info: &mut [u64],
) -> u32
    ensures { RewriteCalled 21 src.now at out.old info.old result out.new info.new }
{
    door::rewrite::yugerzat_rewrite_rpc_body(src, at, out, info)
}

#[unsafe(no_mangle)]
pub extern "C" fn yugerzat_rewrite_call_body(
    src: &[u8],
    at: usize,
    out: &mut [u8],
    info: &mut [u64],
) -> u32
    ensures { RewriteCalled 22 src.now at out.old info.old result out.new info.new }
{
    door::rewrite::yugerzat_rewrite_call_body(src, at, out, info)
}

#[unsafe(no_mangle)]
pub extern "C" fn yugerzat_rewrite_reply_body(
    src: &[u8],
    at: usize,
    out: &mut [u8],
    info: &mut [u64],
) -> u32
    ensures { RewriteCalled 23 src.now at out.old info.old result out.new info.new }
{
    door::rewrite::yugerzat_rewrite_reply_body(src, at, out, info)
}

#[unsafe(no_mangle)]
pub extern "C" fn yugerzat_rewrite_accepted_reply(
    src: &[u8],
    at: usize,
    out: &mut [u8],
    info: &mut [u64],
) -> u32
    ensures { RewriteCalled 24 src.now at out.old info.old result out.new info.new }
{
    door::rewrite::yugerzat_rewrite_accepted_reply(src, at, out, info)
}

#[unsafe(no_mangle)]
pub extern "C" fn yugerzat_rewrite_accept_body(
    src: &[u8],
    at: usize,
    out: &mut [u8],
    info: &mut [u64],
) -> u32
    ensures { RewriteCalled 25 src.now at out.old info.old result out.new info.new }
{
    door::rewrite::yugerzat_rewrite_accept_body(src, at, out, info)
}

#[unsafe(no_mangle)]
pub extern "C" fn yugerzat_rewrite_rejected_reply(
    src: &[u8],
    at: usize,
    out: &mut [u8],
    info: &mut [u64],
) -> u32
    ensures { RewriteCalled 26 src.now at out.old info.old result out.new info.new }
{
    door::rewrite::yugerzat_rewrite_rejected_reply(src, at, out, info)
}

#[unsafe(no_mangle)]
pub extern "C" fn yugerzat_rewrite_mismatch_info(
    src: &[u8],
    at: usize,
    out: &mut [u8],
    info: &mut [u64],
) -> u32
    ensures { RewriteCalled 27 src.now at out.old info.old result out.new info.new }
{
    door::rewrite::yugerzat_rewrite_mismatch_info(src, at, out, info)
}

#[unsafe(no_mangle)]
pub extern "C" fn yugerzat_rewrite_specdata3(
    src: &[u8],
    at: usize,
    out: &mut [u8],
    info: &mut [u64],
) -> u32
    ensures { RewriteCalled 28 src.now at out.old info.old result out.new info.new }
{
    door::rewrite::yugerzat_rewrite_specdata3(src, at, out, info)
}

#[unsafe(no_mangle)]
pub extern "C" fn yugerzat_rewrite_nfs_fh3(
    src: &[u8],
    at: usize,
    out: &mut [u8],
    info: &mut [u64],
) -> u32
    ensures { RewriteCalled 29 src.now at out.old info.old result out.new info.new }
{
    door::rewrite::yugerzat_rewrite_nfs_fh3(src, at, out, info)
}

#[unsafe(no_mangle)]
pub extern "C" fn yugerzat_rewrite_nfstime3(
    src: &[u8],
    at: usize,
    out: &mut [u8],
    info: &mut [u64],
) -> u32
    ensures { RewriteCalled 30 src.now at out.old info.old result out.new info.new }
{
    door::rewrite::yugerzat_rewrite_nfstime3(src, at, out, info)
}

#[unsafe(no_mangle)]
pub extern "C" fn yugerzat_rewrite_fattr3(
    src: &[u8],
    at: usize,
    out: &mut [u8],
    info: &mut [u64],
) -> u32
    ensures { RewriteCalled 31 src.now at out.old info.old result out.new info.new }
{
    door::rewrite::yugerzat_rewrite_fattr3(src, at, out, info)
}

#[unsafe(no_mangle)]
pub extern "C" fn yugerzat_rewrite_fsinfo3(
    src: &[u8],
    at: usize,
    out: &mut [u8],
    info: &mut [u64],
) -> u32
    ensures { RewriteCalled 32 src.now at out.old info.old result out.new info.new }
{
    door::rewrite::yugerzat_rewrite_fsinfo3(src, at, out, info)
}

#[unsafe(no_mangle)]
pub extern "C" fn yugerzat_rewrite_wcc_attr(
    src: &[u8],
    at: usize,
    out: &mut [u8],
    info: &mut [u64],
) -> u32
    ensures { RewriteCalled 33 src.now at out.old info.old result out.new info.new }
{
    door::rewrite::yugerzat_rewrite_wcc_attr(src, at, out, info)
}

#[unsafe(no_mangle)]
pub extern "C" fn yugerzat_rewrite_pre_op_attr(
    src: &[u8],
    at: usize,
    out: &mut [u8],
    info: &mut [u64],
) -> u32
    ensures { RewriteCalled 34 src.now at out.old info.old result out.new info.new }
{
    door::rewrite::yugerzat_rewrite_pre_op_attr(src, at, out, info)
}

#[unsafe(no_mangle)]
pub extern "C" fn yugerzat_rewrite_post_op_attr(
    src: &[u8],
    at: usize,
    out: &mut [u8],
    info: &mut [u64],
) -> u32
    ensures { RewriteCalled 35 src.now at out.old info.old result out.new info.new }
{
    door::rewrite::yugerzat_rewrite_post_op_attr(src, at, out, info)
}

#[unsafe(no_mangle)]
pub extern "C" fn yugerzat_rewrite_wcc_data(
    src: &[u8],
    at: usize,
    out: &mut [u8],
    info: &mut [u64],
) -> u32
    ensures { RewriteCalled 36 src.now at out.old info.old result out.new info.new }
{
    door::rewrite::yugerzat_rewrite_wcc_data(src, at, out, info)
}

#[unsafe(no_mangle)]
pub extern "C" fn yugerzat_rewrite_post_op_fh3(
    src: &[u8],
    at: usize,
    out: &mut [u8],
    info: &mut [u64],
) -> u32
    ensures { RewriteCalled 37 src.now at out.old info.old result out.new info.new }
{
    door::rewrite::yugerzat_rewrite_post_op_fh3(src, at, out, info)
}

#[unsafe(no_mangle)]
pub extern "C" fn yugerzat_rewrite_set_mode3(
    src: &[u8],
    at: usize,
    out: &mut [u8],
    info: &mut [u64],
) -> u32
    ensures { RewriteCalled 38 src.now at out.old info.old result out.new info.new }
{
    door::rewrite::yugerzat_rewrite_set_mode3(src, at, out, info)
}

#[unsafe(no_mangle)]
pub extern "C" fn yugerzat_rewrite_set_uid3(
    src: &[u8],
    at: usize,
    out: &mut [u8],
    info: &mut [u64],
) -> u32
    ensures { RewriteCalled 39 src.now at out.old info.old result out.new info.new }
{
    door::rewrite::yugerzat_rewrite_set_uid3(src, at, out, info)
}

#[unsafe(no_mangle)]
pub extern "C" fn yugerzat_rewrite_set_gid3(
    src: &[u8],
    at: usize,
    out: &mut [u8],
    info: &mut [u64],
) -> u32
    ensures { RewriteCalled 40 src.now at out.old info.old result out.new info.new }
{
    door::rewrite::yugerzat_rewrite_set_gid3(src, at, out, info)
}

#[unsafe(no_mangle)]
pub extern "C" fn yugerzat_rewrite_set_size3(
    src: &[u8],
    at: usize,
    out: &mut [u8],
    info: &mut [u64],
) -> u32
    ensures { RewriteCalled 41 src.now at out.old info.old result out.new info.new }
{
    door::rewrite::yugerzat_rewrite_set_size3(src, at, out, info)
}

#[unsafe(no_mangle)]
pub extern "C" fn yugerzat_rewrite_set_atime(
    src: &[u8],
    at: usize,
    out: &mut [u8],
    info: &mut [u64],
) -> u32
    ensures { RewriteCalled 42 src.now at out.old info.old result out.new info.new }
{
    door::rewrite::yugerzat_rewrite_set_atime(src, at, out, info)
}

#[unsafe(no_mangle)]
pub extern "C" fn yugerzat_rewrite_set_mtime(
    src: &[u8],
    at: usize,
    out: &mut [u8],
    info: &mut [u64],
) -> u32
    ensures { RewriteCalled 43 src.now at out.old info.old result out.new info.new }
{
    door::rewrite::yugerzat_rewrite_set_mtime(src, at, out, info)
}

#[unsafe(no_mangle)]
pub extern "C" fn yugerzat_rewrite_sattr3(
    src: &[u8],
    at: usize,
    out: &mut [u8],
    info: &mut [u64],
) -> u32
    ensures { RewriteCalled 44 src.now at out.old info.old result out.new info.new }
{
    door::rewrite::yugerzat_rewrite_sattr3(src, at, out, info)
}

#[unsafe(no_mangle)]
pub extern "C" fn yugerzat_rewrite_diropargs3(
    src: &[u8],
    at: usize,
    out: &mut [u8],
    info: &mut [u64],
) -> u32
    ensures { RewriteCalled 45 src.now at out.old info.old result out.new info.new }
{
    door::rewrite::yugerzat_rewrite_diropargs3(src, at, out, info)
}

#[unsafe(no_mangle)]
pub extern "C" fn yugerzat_rewrite_symlinkdata3(
    src: &[u8],
    at: usize,
    out: &mut [u8],
    info: &mut [u64],
) -> u32
    ensures { RewriteCalled 46 src.now at out.old info.old result out.new info.new }
{
    door::rewrite::yugerzat_rewrite_symlinkdata3(src, at, out, info)
}

#[unsafe(no_mangle)]
pub extern "C" fn yugerzat_rewrite_stable_how(
    src: &[u8],
    at: usize,
    out: &mut [u8],
    info: &mut [u64],
) -> u32
    ensures { RewriteCalled 47 src.now at out.old info.old result out.new info.new }
{
    door::rewrite::yugerzat_rewrite_stable_how(src, at, out, info)
}

#[unsafe(no_mangle)]
pub extern "C" fn yugerzat_rewrite_sattrguard3(
    src: &[u8],
    at: usize,
    out: &mut [u8],
    info: &mut [u64],
) -> u32
    ensures { RewriteCalled 48 src.now at out.old info.old result out.new info.new }
{
    door::rewrite::yugerzat_rewrite_sattrguard3(src, at, out, info)
}

#[unsafe(no_mangle)]
pub extern "C" fn yugerzat_rewrite_getattr3args(
    src: &[u8],
    at: usize,
    out: &mut [u8],
    info: &mut [u64],
) -> u32
    ensures { RewriteCalled 49 src.now at out.old info.old result out.new info.new }
{
    door::rewrite::yugerzat_rewrite_getattr3args(src, at, out, info)
}

#[unsafe(no_mangle)]
pub extern "C" fn yugerzat_rewrite_getattr3res(
    src: &[u8],
    at: usize,
    out: &mut [u8],
    info: &mut [u64],
) -> u32
    ensures { RewriteCalled 50 src.now at out.old info.old result out.new info.new }
{
    door::rewrite::yugerzat_rewrite_getattr3res(src, at, out, info)
}

#[unsafe(no_mangle)]
pub extern "C" fn yugerzat_rewrite_setattr3args(
    src: &[u8],
    at: usize,
    out: &mut [u8],
    info: &mut [u64],
) -> u32
    ensures { RewriteCalled 51 src.now at out.old info.old result out.new info.new }
{
    door::rewrite::yugerzat_rewrite_setattr3args(src, at, out, info)
}

#[unsafe(no_mangle)]
pub extern "C" fn yugerzat_rewrite_setattr3res(
    src: &[u8],
    at: usize,
    out: &mut [u8],
    info: &mut [u64],
) -> u32
    ensures { RewriteCalled 52 src.now at out.old info.old result out.new info.new }
{
    door::rewrite::yugerzat_rewrite_setattr3res(src, at, out, info)
}

#[unsafe(no_mangle)]
pub extern "C" fn yugerzat_rewrite_lookup3args(
    src: &[u8],
    at: usize,
    out: &mut [u8],
    info: &mut [u64],
) -> u32
    ensures { RewriteCalled 53 src.now at out.old info.old result out.new info.new }
{
    door::rewrite::yugerzat_rewrite_lookup3args(src, at, out, info)
}

#[unsafe(no_mangle)]
pub extern "C" fn yugerzat_rewrite_lookup3res(
    src: &[u8],
    at: usize,
    out: &mut [u8],
    info: &mut [u64],
) -> u32
    ensures { RewriteCalled 54 src.now at out.old info.old result out.new info.new }
{
    door::rewrite::yugerzat_rewrite_lookup3res(src, at, out, info)
}

#[unsafe(no_mangle)]
pub extern "C" fn yugerzat_rewrite_read3args(
    src: &[u8],
    at: usize,
    out: &mut [u8],
    info: &mut [u64],
) -> u32
    ensures { RewriteCalled 55 src.now at out.old info.old result out.new info.new }
{
    door::rewrite::yugerzat_rewrite_read3args(src, at, out, info)
}

#[unsafe(no_mangle)]
pub extern "C" fn yugerzat_rewrite_read3res(
    src: &[u8],
    at: usize,
    out: &mut [u8],
    info: &mut [u64],
) -> u32
    ensures { RewriteCalled 56 src.now at out.old info.old result out.new info.new }
{
    door::rewrite::yugerzat_rewrite_read3res(src, at, out, info)
}

#[unsafe(no_mangle)]
pub extern "C" fn yugerzat_rewrite_write3args(
    src: &[u8],
    at: usize,
    out: &mut [u8],
    info: &mut [u64],
) -> u32
    ensures { RewriteCalled 57 src.now at out.old info.old result out.new info.new }
{
    door::rewrite::yugerzat_rewrite_write3args(src, at, out, info)
}

#[unsafe(no_mangle)]
pub extern "C" fn yugerzat_rewrite_write3res(
    src: &[u8],
    at: usize,
    out: &mut [u8],
    info: &mut [u64],
) -> u32
    ensures { RewriteCalled 58 src.now at out.old info.old result out.new info.new }
{
    door::rewrite::yugerzat_rewrite_write3res(src, at, out, info)
}

#[unsafe(no_mangle)]
pub extern "C" fn yugerzat_rewrite_current_accept_stat(
    src: &[u8],
    at: usize,
    out: &mut [u8],
    info: &mut [u64],
) -> u32
    ensures { RewriteCalled 59 src.now at out.old info.old result out.new info.new }
{
    door::rewrite::yugerzat_rewrite_current_accept_stat(src, at, out, info)
}

#[unsafe(no_mangle)]
pub extern "C" fn yugerzat_rewrite_current_auth_stat(
    src: &[u8],
    at: usize,
    out: &mut [u8],
    info: &mut [u64],
) -> u32
    ensures { RewriteCalled 60 src.now at out.old info.old result out.new info.new }
{
    door::rewrite::yugerzat_rewrite_current_auth_stat(src, at, out, info)
}

#[unsafe(no_mangle)]
pub extern "C" fn yugerzat_rewrite_current_accept_body(
    src: &[u8],
    at: usize,
    out: &mut [u8],
    info: &mut [u64],
) -> u32
    ensures { RewriteCalled 61 src.now at out.old info.old result out.new info.new }
{
    door::rewrite::yugerzat_rewrite_current_accept_body(src, at, out, info)
}

#[unsafe(no_mangle)]
pub extern "C" fn yugerzat_rewrite_current_accepted_reply(
    src: &[u8],
    at: usize,
    out: &mut [u8],
    info: &mut [u64],
) -> u32
    ensures { RewriteCalled 62 src.now at out.old info.old result out.new info.new }
{
    door::rewrite::yugerzat_rewrite_current_accepted_reply(src, at, out, info)
}

#[unsafe(no_mangle)]
pub extern "C" fn yugerzat_rewrite_current_rejected_reply(
    src: &[u8],
    at: usize,
    out: &mut [u8],
    info: &mut [u64],
) -> u32
    ensures { RewriteCalled 63 src.now at out.old info.old result out.new info.new }
{
    door::rewrite::yugerzat_rewrite_current_rejected_reply(src, at, out, info)
}

#[unsafe(no_mangle)]
pub extern "C" fn yugerzat_rewrite_current_reply_body(
    src: &[u8],
    at: usize,
    out: &mut [u8],
    info: &mut [u64],
) -> u32
    ensures { RewriteCalled 64 src.now at out.old info.old result out.new info.new }
{
    door::rewrite::yugerzat_rewrite_current_reply_body(src, at, out, info)
}

#[unsafe(no_mangle)]
pub extern "C" fn yugerzat_rewrite_current_rpc_body(
    src: &[u8],
    at: usize,
    out: &mut [u8],
    info: &mut [u64],
) -> u32
    ensures { RewriteCalled 65 src.now at out.old info.old result out.new info.new }
{
    door::rewrite::yugerzat_rewrite_current_rpc_body(src, at, out, info)
}

#[unsafe(no_mangle)]
pub extern "C" fn yugerzat_rewrite_current_rpc_msg(
    src: &[u8],
    at: usize,
    out: &mut [u8],
    info: &mut [u64],
) -> u32
    ensures { RewriteCalled 66 src.now at out.old info.old result out.new info.new }
{
    door::rewrite::yugerzat_rewrite_current_rpc_msg(src, at, out, info)
}

#[unsafe(no_mangle)]
pub extern "C" fn yugerzat_rewrite_dirpath(
    src: &[u8],
    at: usize,
    out: &mut [u8],
    info: &mut [u64],
) -> u32
    ensures { RewriteCalled 67 src.now at out.old info.old result out.new info.new }
{
    door::rewrite::yugerzat_rewrite_dirpath(src, at, out, info)
}

#[unsafe(no_mangle)]
pub extern "C" fn yugerzat_rewrite_mountstat3(
    src: &[u8],
    at: usize,
    out: &mut [u8],
    info: &mut [u64],
) -> u32
    ensures { RewriteCalled 68 src.now at out.old info.old result out.new info.new }
{
    door::rewrite::yugerzat_rewrite_mountstat3(src, at, out, info)
}

#[unsafe(no_mangle)]
pub extern "C" fn yugerzat_rewrite_mountres3(
    src: &[u8],
    at: usize,
    out: &mut [u8],
    info: &mut [u64],
) -> u32
    ensures { RewriteCalled 69 src.now at out.old info.old result out.new info.new }
{
    door::rewrite::yugerzat_rewrite_mountres3(src, at, out, info)
}

#[unsafe(no_mangle)]
pub extern "C" fn yugerzat_rewrite_exports(
    src: &[u8],
    at: usize,
    out: &mut [u8],
    info: &mut [u64],
) -> u32
    ensures { RewriteCalled 70 src.now at out.old info.old result out.new info.new }
{
    door::rewrite::yugerzat_rewrite_exports(src, at, out, info)
}

#[unsafe(no_mangle)]
pub extern "C" fn yugerzat_rewrite_mapping(
    src: &[u8],
    at: usize,
    out: &mut [u8],
    info: &mut [u64],
) -> u32
    ensures { RewriteCalled 71 src.now at out.old info.old result out.new info.new }
{
    door::rewrite::yugerzat_rewrite_mapping(src, at, out, info)
}
