//! Packets by name.

use std::alloc::{AllocError, Allocator};

/// Call requests are for 2080020 (`call` with four octets of user data, `call-b` without), for 2080030 (`call-h`) and for an
/// address that nobody has. Incoming calls come from 2080010 and 2080040 (`incoming-m`), to 2080020 also from 2080030
/// (`incoming-b`), and to 2080032 (`incoming-h`). A data packet and a receive ready are named by their P(S) or P(R). What ends in
/// `-128` is numbered modulo 128: P(S) 0 and P(R) 0, or P(R) 1.
const PACKETS: &str = "
call=10010b07208002000001000000 incoming=10010b77208002020800100642070743020201000000
call-b=10010b072080020000 incoming-b=10010b772080020208003006420707430202
call-h=10010b072080030000 incoming-h=10010b772080032208001006420707430202
incoming-m=10010b77208002020800400642070743020201000000 call-nobody=10010b072080099000
accepted=10010f connected=10010f0006420707430202 clear=1001130000 confirmation=100117
out-of-order=1001130900 not-obtainable=1001130d43 caller-expired=1001131131 called-expired=1001131331 confirmed-idle=1001131314
data0=10010041 data1=10010241 data2=10010441 data3=10010641 data4=10010841 data5=10010a41 data6=10010c41 data7=10010e41
ready0=100101 ready1=100121 ready2=100141 ready3=100161 ready4=100181 ready5=1001a1 ready6=1001c1 ready7=1001e1
second=10010242 reset=10011b0000 reset-confirmation=10011f
call-128=20010b07208002000001000000 connected-128=20010f0006420707430202 data-128=2001000041 ready-128=20010102
clear-128=2001130000 confirmation-128=200117";

/// The octets of the packet with this name in hexadecimal digits; none where no packet has it.
fn digits_of(name: &str) -> &'static str {
    for word in PACKETS.split_whitespace() {
        let (known, digits) = word.split_once('=').unwrap_or(("", ""));
        if known == name {
            return digits;
        }
    }
    ""
}

/// The octets of the packet with this name; none where no packet has it.
///
/// # Errors
///
/// `AllocError` if an allocation fails.
pub fn octets_of<A: Allocator>(alloc: A, name: &str) -> Result<Vec<u8, A>, AllocError> {
    match hex::decode(alloc, digits_of(name)) {
        Ok(octets) => Ok(octets),
        Err(_) => Err(AllocError),
    }
}
