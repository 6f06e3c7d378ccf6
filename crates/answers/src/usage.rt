// How to use the program: the lines, each with an example and its answer; and the kinds.
use crate::print::Page;

pub(crate) fn print(page: &mut Page) {
    questions(page);
    questions_of_calls(page);
    kinds(page);
    page.say(
        b"
A refusal is refused 1 PLACE COUNT, where COUNT bytes are wanting to finish the item at PLACE, refused 2 PLACE,
refused 10 PLACE, and refused N for the others, and for all in writing. Buffers hold EE before anything is written. An empty run is fed once. A line that
is not of this form gets ? and why, and so does one that has more than 2200000 characters, or whose ROOM or
LENGTH is over 1048576.
",
    );
    page.flush();
}

fn questions(page: &mut Page) {
    page.say(
        b"usage: answers < LINES

Reads lines to the end of the input and writes one line for each. The words of a line are parted by one
space. Bytes are hex, - for none; numbers are decimal and fit 64 bits.

  read KIND AT HEX             took NEXT plain|loose REWRITING, or a refusal
      read bool 0 00000100
      took 4 loose 00000001
  marks KIND AT HEX            took NEXT plain|loose MARKS, or a refusal: a letter for each piece in the order of the
                               fields, c where its padding was all zero and else d; - for none
      marks diropargs3 0 00000001AA00000000000001BB0000CC
      took 16 loose cd
  write KIND AT HEX ROOM START wrote NEXT BUFFER, or refused N BUFFER, or the refusal to read
      write bool 0 00000100 6 1
      wrote 5 ee00000001ee
  fragment HEX ROOM START      wrote NEXT BUFFER, or refused N BUFFER
      fragment ABCD 6 0
      wrote 6 80000002abcd
",
    );
    page.say(
        b"  feed CAPACITY RUN RUN ..     more USED, complete LENGTH USED RECORD or refused N USED of each feed, and where
                               that leads: state CAPACITY PLACED COUNT VALUE LEFT LAST STOPPED; buffer BUFFER
      feed 4 8000 0002ABCD
      more 2; complete 2 4 abcd; state 4 0 0 0 0 0 0; buffer abcdeeee
  state CAPACITY PLACED COUNT VALUE LEFT LAST STOPPED LENGTH RUN
                               the same for one feed of that state with a buffer of LENGTH bytes
      state 4 0 0 0 2 1 0 4 AB
      more 1; state 4 1 0 0 1 1 0; buffer abeeeeee
  stream CAPACITY HEX LENGTH LENGTH ..
                               record LENGTH RECORD of each record, refused N AFTER for a stop, used TOTAL, and where that
                               leads: HEX fed in runs of these lengths, and then whole; the same whatever they are
      stream 4 80000002ABCD80000000 1 0 6
      record 2 abcd; record 0 -; used 10; state 4 0 0 0 0 0 0; buffer abcdeeee
",
    );
}

fn questions_of_calls(page: &mut Page) {
    page.say(
        b"  choose SEEN ROOM HEX         handover PROGRAM VERSION PROCEDURE ARGUMENTS, then none or unix STAMP NAMEPLACE
                               NAMECOUNT UID GID GIDSPLACE GIDSCOUNT; reply 24; silence; or a refusal; then BUFFER
      choose 0 24 0000002A00000002
      reply 24 0000002a0000000100000001000000000000000000000000
  current_choose SEEN ROOM HEX the same in the current reading of RFC 5531
      current_choose 0 24 0000002A00000002
      reply 24 0000002a0000000100000001000000000000000200000002
  ask SEEN ROOM HEX            as choose has it; of calls to mount and port mapper reply 24, reply 32, mnt PLACE COUNT
                               NEXT, umnt PLACE COUNT NEXT, export NEXT, getport PROGRAM VERSION PROTOCOL PORT NEXT, or
                               a refusal; then BUFFER
      ask 0 0 0000002A0000000000000002000186A5000000030000000500000000000000000000000000000000
      export 40 -
  path HEX PLACE COUNT ROOM START
                               wrote NEXT BUFFER, or refused N BUFFER: that piece of HEX, written as a dirpath
      path 2F61 0 2 8 0
      wrote 8 000000022f610000
  list HEX PLACE COUNT ROOM START
                               the same for the export list of COUNT entries whose first flag stands at PLACE of HEX
      list 00000002000000012F0000FF0000000000000000 0 1 20 0
      wrote 20 00000001000000012f0000000000000000000000
  part HEX PLACE COUNT         inside BYTES, or outside -
      part 0011223344 1 3
      inside 112233
  words HEX PLACE COUNT        the same for COUNT words of four bytes
      words 0000000100000002 0 2
      inside 0000000100000002

",
    );
}

fn kinds(page: &mut Page) {
    page.say(
        // made by tools/generate: names
        b"The kinds:
  bool i32 i64 u32 u64 eight opaque nfsstring words msg_type reply_stat accept_stat reject_stat
  auth_stat auth_flavor time_how nfsstat3 ftype3 auth_unix opaque_auth rpc_msg rpc_body call_body
  reply_body accepted_reply accept_body rejected_reply mismatch_info specdata3 nfs_fh3 nfstime3
  fattr3 fsinfo3 wcc_attr pre_op_attr post_op_attr wcc_data post_op_fh3 set_mode3 set_uid3 set_gid3
  set_size3 set_atime set_mtime sattr3 diropargs3 symlinkdata3 stable_how sattrguard3 getattr3args
  getattr3res setattr3args setattr3res lookup3args lookup3res read3args read3res write3args
  write3res current_accept_stat current_auth_stat current_accept_body current_accepted_reply
  current_rejected_reply current_reply_body current_rpc_body current_rpc_msg dirpath mountstat3
  mountres3 exports mapping
",
        // end of names
    );
}
