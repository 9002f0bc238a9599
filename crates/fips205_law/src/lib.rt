//! The definitions of this project and the algorithms of FIPS 205 as they are written give the same
//! (docs/STANDARD.md). Each law is the contract of a function that does nothing.
#![tactic(auto)]

ghost use Rattle.fips205_law.specs.Law.{AddressesAgree, Base2bAgrees, ChainAgrees, ForsNodeAgrees};
ghost use Rattle.fips205_law.specs.Law.{ForsPkFromSigAgrees, ForsSignAgrees, ForsSkGenAgrees};
ghost use Rattle.fips205_law.specs.Law.{FrameAgrees, HashMessageAgrees, HashSlhSignAgrees};
ghost use Rattle.fips205_law.specs.Law.{HashSlhVerifyAgrees, HtSignAgrees, HtVerifyAgrees};
ghost use Rattle.fips205_law.specs.Law.{KeygenAgrees, LenAgrees, LenDiffersAtEight, LoopsEnd};
ghost use Rattle.fips205_law.specs.Law.{SignAgrees, SlhKeygenAgrees, SlhSignAgrees};
ghost use Rattle.fips205_law.specs.Law.{SlhVerifyAgrees, ToByteAgrees, ToIntAgrees, VerifyAgrees};
ghost use Rattle.fips205_law.specs.Law.{WotsMsgAgrees, WotsPkFromSigAgrees, WotsPkGenAgrees};
ghost use Rattle.fips205_law.specs.Law.{WotsSignAgrees, XmssNodeAgrees, XmssPkFromSigAgrees};
ghost use Rattle.fips205_law.specs.Law.{XmssSignAgrees};
ghost use Rattle.fips205_law.specs.Toy.{ToyAgrees};

/// Does nothing: its clause is the law of algorithm 2.
pub fn to_int_agrees()
    ensures { ToIntAgrees }
{}

/// Does nothing: its clause is the law of algorithm 3.
pub fn to_byte_agrees()
    ensures { ToByteAgrees }
{}

/// Does nothing: its clause is the law of algorithm 4.
pub fn base_2b_agrees()
    ensures { Base2bAgrees }
{}

/// Does nothing: its clause is the law of the functions of addresses.
pub fn addresses_agree()
    ensures { AddressesAgree }
{}

/// Does nothing: its clause is the law of algorithm 1.
pub fn len_agrees()
    ensures { LenAgrees }
{}

/// Does nothing: its clause is the law of algorithm 5.
pub fn chain_agrees()
    ensures { ChainAgrees }
{}

/// Does nothing: its clause is the law of algorithm 6.
pub fn wots_pk_gen_agrees()
    ensures { WotsPkGenAgrees }
{}

/// Does nothing: its clause is the law of lines 1 to 7 of algorithms 7 and 8.
pub fn wots_msg_agrees()
    ensures { WotsMsgAgrees }
{}

/// Does nothing: its clause is the law of algorithm 7.
pub fn wots_sign_agrees()
    ensures { WotsSignAgrees }
{}

/// Does nothing: its clause is the law of algorithm 8.
pub fn wots_pk_from_sig_agrees()
    ensures { WotsPkFromSigAgrees }
{}

/// Does nothing: its clause is the law of algorithm 9.
pub fn xmss_node_agrees()
    ensures { XmssNodeAgrees }
{}

/// Does nothing: its clause is the law of algorithm 10.
pub fn xmss_sign_agrees()
    ensures { XmssSignAgrees }
{}

/// Does nothing: its clause is the law of algorithm 11.
pub fn xmss_pk_from_sig_agrees()
    ensures { XmssPkFromSigAgrees }
{}

/// Does nothing: its clause is the law of algorithm 14.
pub fn fors_sk_gen_agrees()
    ensures { ForsSkGenAgrees }
{}

/// Does nothing: its clause is the law of algorithm 15.
pub fn fors_node_agrees()
    ensures { ForsNodeAgrees }
{}

/// Does nothing: its clause is the law of algorithm 16.
pub fn fors_sign_agrees()
    ensures { ForsSignAgrees }
{}

/// Does nothing: its clause is the law of algorithm 17.
pub fn fors_pk_from_sig_agrees()
    ensures { ForsPkFromSigAgrees }
{}

/// Does nothing: its clause is the law of algorithm 12.
pub fn ht_sign_agrees()
    ensures { HtSignAgrees }
{}

/// Does nothing: its clause is the law of algorithm 13.
pub fn ht_verify_agrees()
    ensures { HtVerifyAgrees }
{}

/// Does nothing: its clause is the law of algorithm 18.
pub fn keygen_agrees()
    ensures { KeygenAgrees }
{}

/// Does nothing: its clause is the law of algorithm 19.
pub fn sign_agrees()
    ensures { SignAgrees }
{}

/// Does nothing: its clause is the law of algorithm 20.
pub fn verify_agrees()
    ensures { VerifyAgrees }
{}

/// Does nothing: its clause is the law of line 8 of algorithm 22, and line 4 of algorithm 24.
pub fn frame_agrees()
    ensures { FrameAgrees }
{}

/// Does nothing: its clause says where the project's count of chains is not the standard's.
pub fn len_differs_at_eight()
    ensures { LenDiffersAtEight }
{}

/// Does nothing: its clause is the law of algorithm 21.
pub fn slh_keygen_agrees()
    ensures { SlhKeygenAgrees }
{}

/// Does nothing: its clause is the law of algorithm 22.
pub fn slh_sign_agrees()
    ensures { SlhSignAgrees }
{}

/// Does nothing: its clause is the law of algorithm 24.
pub fn slh_verify_agrees()
    ensures { SlhVerifyAgrees }
{}

/// Does nothing: its clause is the law of what algorithms 23 and 25 sign and check.
pub fn hash_message_agrees()
    ensures { HashMessageAgrees }
{}

/// Does nothing: its clause is the law of algorithm 23.
pub fn hash_slh_sign_agrees()
    ensures { HashSlhSignAgrees }
{}

/// Does nothing: its clause is the law of algorithm 25.
pub fn hash_slh_verify_agrees()
    ensures { HashSlhVerifyAgrees }
{}

/// Does nothing: its clause says that the loops with a test have ended.
pub fn loops_end()
    ensures { LoopsEnd }
{}

/// Does nothing: its clause has the values of the toy suite's worked signature up to the forest's
/// key, from the standard's algorithms.
pub fn toy_agrees()
    ensures { ToyAgrees }
{}
