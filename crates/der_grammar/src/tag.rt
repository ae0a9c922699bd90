//! The tags of the universal types, each as its one octet (X.690, 8.1.2; X.680, 8.6).

/// BOOLEAN.
pub const BOOLEAN: u8 = 1;
/// INTEGER.
pub const INTEGER: u8 = 2;
/// BIT STRING.
pub const BIT_STRING: u8 = 3;
/// OCTET STRING.
pub const OCTET_STRING: u8 = 4;
/// OBJECT IDENTIFIER.
pub const OID: u8 = 6;
/// UTF8String.
pub const UTF8: u8 = 12;
/// IA5String.
pub const IA5: u8 = 22;
/// UTCTime.
pub const UTC_TIME: u8 = 23;
/// GeneralizedTime.
pub const GENERALIZED_TIME: u8 = 24;
/// SEQUENCE and SEQUENCE OF.
pub const SEQUENCE: u8 = 48;
/// SET and SET OF.
pub const SET: u8 = 49;
/// `[0]` of a type that holds others, or EXPLICIT.
pub const CONSTRUCTED_0: u8 = 160;
/// `[1]` of a type that holds others, or EXPLICIT.
pub const CONSTRUCTED_1: u8 = 161;
/// `[2]` of a type that holds others, or EXPLICIT.
pub const CONSTRUCTED_2: u8 = 162;
/// `[3]` of a type that holds others, or EXPLICIT.
pub const CONSTRUCTED_3: u8 = 163;
/// `[4]` of a type that holds others, or EXPLICIT.
pub const CONSTRUCTED_4: u8 = 164;
/// `[0]` IMPLICIT of a type that holds no others.
pub const PRIMITIVE_0: u8 = 128;
/// `[1]` IMPLICIT of a type that holds no others.
pub const PRIMITIVE_1: u8 = 129;
/// `[6]` IMPLICIT of a type that holds no others.
pub const PRIMITIVE_6: u8 = 134;
