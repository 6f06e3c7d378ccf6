// The kinds by name. A kind's number at the door is its place in this list.

// Which word of a list a word is, counted from 0.
fn place(list: &[u8], word: &[u8]) -> Option<usize> {
    list.split(|&c| c == b' ').position(|name| name == word)
}

pub(crate) fn kind_named(word: &[u8]) -> Option<u32> {
    let place = place(
        // made by tools/generate: kinds
        b"bool i32 i64 u32 u64 eight opaque nfsstring words msg_type reply_stat accept_stat reject_stat auth_stat auth_flavor time_how nfsstat3 ftype3 auth_unix opaque_auth rpc_msg rpc_body call_body reply_body accepted_reply accept_body rejected_reply mismatch_info specdata3 nfs_fh3 nfstime3 fattr3 fsinfo3 wcc_attr pre_op_attr post_op_attr wcc_data post_op_fh3 set_mode3 set_uid3 set_gid3 set_size3 set_atime set_mtime sattr3 diropargs3 symlinkdata3 stable_how sattrguard3 getattr3args getattr3res setattr3args setattr3res lookup3args lookup3res read3args read3res write3args write3res current_accept_stat current_auth_stat current_accept_body current_accepted_reply current_rejected_reply current_reply_body current_rpc_body current_rpc_msg dirpath mountstat3 mountres3 exports mapping",
        // end of kinds
        word,
    )?;
    u32::try_from(place).ok()
}
