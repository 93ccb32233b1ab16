//! The tags of a response to SELECT PPSE (EMV Book B, EMV Book 1).

/// The File Control Information template.
pub const FCI_TEMPLATE: u32 = 0x6f;

/// The proprietary template of the File Control Information.
pub const FCI_PROPRIETARY_TEMPLATE: u32 = 0xa5;

/// The issuer's discretionary data of the File Control Information, in which the entries stand.
pub const FCI_ISSUER_DATA: u32 = 0xbf0c;

/// A directory entry.
pub const DIRECTORY_ENTRY: u32 = 0x61;

/// The ADF Name.
pub const ADF_NAME: u32 = 0x4f;

/// The Application Label.
pub const APPLICATION_LABEL: u32 = 0x50;

/// The Application Priority Indicator.
pub const APPLICATION_PRIORITY: u32 = 0x87;

/// The Kernel Identifier.
pub const KERNEL_IDENTIFIER: u32 = 0x9f2a;

/// The Extended Selection.
pub const EXTENDED_SELECTION: u32 = 0x9f29;
