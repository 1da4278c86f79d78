//! Sector 0 of an MBR disk, the chain of its extended partition, and the protective record of a GPT.

pub use pt_mbr::{
    ChainError, Ebr, EbrFault, Mbr, Record, bears_protective, decode_ebr, decode_mbr, encode_mbr,
    is_extended_kind, is_protective, protective, put_record, read_chain,
};
