// The published examples, in hexadecimal digits as the documents print them.

// The encryption of a block.
pub(crate) struct Encryption {
    pub name: &'static str,
    pub key: &'static str,
    pub input: &'static str,
}

// FIPS 197, appendices B and C.1.
pub(crate) const ENCRYPTIONS: [Encryption; 2] = [
    Encryption {
        name: "fips_197_b",
        key: "2b7e151628aed2a6abf7158809cf4f3c",
        input: "3243f6a8885a308d313198a2e0370734",
    },
    Encryption {
        name: "fips_197_c1",
        key: "000102030405060708090a0b0c0d0e0f",
        input: "00112233445566778899aabbccddeeff",
    },
];

// A text with additional data, to be sealed.
pub(crate) struct Sealing {
    pub name: &'static str,
    pub key: &'static str,
    pub iv: &'static str,
    pub data: &'static str,
    pub text: &'static str,
}

// McGrew and Viega, appendix B, test cases 1 to 4. Then NIST CAVP, gcmEncryptExtIV128.rsp: of the examples with an IV of 96 bits and
// a tag of 128, one with neither text nor additional data, one with text, one with data, one with both.
pub(crate) const SEALINGS: [Sealing; 8] = [
    Sealing {
        name: "mcgrew_viega_1",
        key: "00000000000000000000000000000000",
        iv: "000000000000000000000000",
        data: "",
        text: "",
    },
    Sealing {
        name: "mcgrew_viega_2",
        key: "00000000000000000000000000000000",
        iv: "000000000000000000000000",
        data: "",
        text: "00000000000000000000000000000000",
    },
    Sealing {
        name: "mcgrew_viega_3",
        key: "feffe9928665731c6d6a8f9467308308",
        iv: "cafebabefacedbaddecaf888",
        data: "",
        text: "d9313225f88406e5a55909c5aff5269a86a7a9531534f7da2e4c303d8a318a721c3c0c95956809532fcf0e2449a6b525b16aedf5aa0de657ba637b391aafd255",
    },
    Sealing {
        name: "mcgrew_viega_4",
        key: "feffe9928665731c6d6a8f9467308308",
        iv: "cafebabefacedbaddecaf888",
        data: "feedfacedeadbeeffeedfacedeadbeefabaddad2",
        text: "d9313225f88406e5a55909c5aff5269a86a7a9531534f7da2e4c303d8a318a721c3c0c95956809532fcf0e2449a6b525b16aedf5aa0de657ba637b39",
    },
    Sealing {
        name: "nist_a",
        key: "11754cd72aec309bf52f7687212e8957",
        iv: "3c819d9a9bed087615030b65",
        data: "",
        text: "",
    },
    Sealing {
        name: "nist_b",
        key: "7fddb57453c241d03efbed3ac44e371c",
        iv: "ee283a3fc75575e33efd4887",
        data: "",
        text: "d5de42b461646c255c87bd2962d3b9a2",
    },
    Sealing {
        name: "nist_c",
        key: "77be63708971c4e240d1cb79e8d77feb",
        iv: "e0e00f19fed7ba0136a797f3",
        data: "7a43ec1d9c0a5a78a0b16533a6213cab",
        text: "",
    },
    Sealing {
        name: "nist_d",
        key: "c939cc13397c1d37de6ae0e1cb7c423c",
        iv: "b3d8cc017cbb89b39e0f67e2",
        data: "24825602bd12a984e0092d3e448eda5f",
        text: "c3b3c41f113a31b73d9a5cd432103069",
    },
];
