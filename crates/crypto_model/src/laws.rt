//! The definitions, computed on published vectors.
ghost use Rattle.std.specs.Prelude.{◌≡◌, ◌++◌, [], codes, drop, replicate};
ghost use Rattle.std.specs.List.{range_with_len};
ghost use Rattle.crypto_model.specs.Aes.{cipher, inverse_cipher};
ghost use Rattle.crypto_model.specs.Modes.{ctr, cbc_encrypt, cbc_decrypt};
ghost use Rattle.crypto_model.specs.Gcm.{gcm_text, gcm_tag};
ghost use Rattle.crypto_model.specs.Hmac.{hmac_of};
ghost use Rattle.crypto_model.specs.Block.{block};
ghost use Rattle.crypto_model.specs.declared.plain.Hash.TheVariants.{Sha256, Sha512};

/// The cipher and its inverse on the examples of FIPS 197, Appendix C, whose keys are the bytes 0, 1, 2 and so on.
pub fn cipher_vectors()
    ensures aes_128 { cipher (range_with_len 0 16) (block 0x00112233445566778899aabbccddeeff) ≡ block 0x69c4e0d86a7b0430d8cdb78070b4c55a }
    ensures aes_192 { cipher (range_with_len 0 24) (block 0x00112233445566778899aabbccddeeff) ≡ block 0xdda97ca4864cdfe06eaf70a0ec0d7191 }
    ensures aes_256 { cipher (range_with_len 0 32) (block 0x00112233445566778899aabbccddeeff) ≡ block 0x8ea2b7ca516745bfeafc49904b496089 }
    ensures back_128 { inverse_cipher (range_with_len 0 16) (block 0x69c4e0d86a7b0430d8cdb78070b4c55a) ≡ block 0x00112233445566778899aabbccddeeff }
    ensures back_192 { inverse_cipher (range_with_len 0 24) (block 0xdda97ca4864cdfe06eaf70a0ec0d7191) ≡ block 0x00112233445566778899aabbccddeeff }
    ensures back_256 { inverse_cipher (range_with_len 0 32) (block 0x8ea2b7ca516745bfeafc49904b496089) ≡ block 0x00112233445566778899aabbccddeeff }
{}

/// The modes on the first block of SP 800-38A F.2.1, F.2.2 and F.5.1, CBC on the first two of F.2.1, and CTR on a counter
/// that passes its last value.
pub fn mode_vectors()
    ensures cbc { cbc_encrypt (cipher (block 0x2b7e151628aed2a6abf7158809cf4f3c)) (range_with_len 0 16)
        (block 0x6bc1bee22e409f96e93d7e117393172a) ≡ block 0x7649abac8119b246cee98e9b12e9197d }
    ensures cbc_two { cbc_encrypt (cipher (block 0x2b7e151628aed2a6abf7158809cf4f3c)) (range_with_len 0 16)
        (block 0x6bc1bee22e409f96e93d7e117393172a ++ block 0xae2d8a571e03ac9c9eb76fac45af8e51)
        ≡ block 0x7649abac8119b246cee98e9b12e9197d ++ block 0x5086cb9b507219ee95db113a917678b2 }
    ensures cbc_back { cbc_decrypt (inverse_cipher (block 0x2b7e151628aed2a6abf7158809cf4f3c)) (range_with_len 0 16)
        (block 0x7649abac8119b246cee98e9b12e9197d) ≡ block 0x6bc1bee22e409f96e93d7e117393172a }
    ensures ctr { ctr (cipher (block 0x2b7e151628aed2a6abf7158809cf4f3c)) (block 0xf0f1f2f3f4f5f6f7f8f9fafbfcfdfeff)
        (block 0x6bc1bee22e409f96e93d7e117393172a) ≡ block 0x874d6191b620e3261bef6864990db6ce }
    ensures ctr_carry { drop 16 (ctr (cipher (replicate 16 0)) (replicate 16 255) (replicate 32 0)) ≡ block 0x66e94bd4ef8a2c3b884cfa59ca342b2e }
{}

/// HMAC on cases 2 and 6 of RFC 4231: a key shorter than a block under two hashes, and one longer than a block.
pub fn hmac_vectors()
    ensures short_key { hmac_of Sha256 (codes "Jefe") (codes "what do ya want for nothing?")
        ≡ block 0x5bdcc146bf60754e6a042426089575c7 ++ block 0x5a003f089d2739839dec58b964ec3843 }
    ensures long_key { hmac_of Sha256 (replicate 131 0xaa) (codes "Test Using Larger Than Block-Size Key - Hash Key First")
        ≡ block 0x60e431591ee0b67f0d8a26aacbf5b77f ++ block 0x8e0bc6213728c5140546040f0ee37f54 }
    ensures sha512 { hmac_of Sha512 (codes "Jefe") (codes "what do ya want for nothing?")
        ≡ block 0x164b7a7bfcf819e2e395fbe73b56e0a3 ++ block 0x87bd64222e831fd610270cd7ea250554
        ++ block 0x9758bf75c05a994a6d034f65f8f0e6fd ++ block 0xcaeab1a34d4a6b4b636e070a38bce737 }
{}

/// GCM under the zero key and the zero IV, with no text and with one zero block: test cases 1 and 2 of the
/// mode's first publication. And with no text and 20 bytes of data that is only authenticated, as Python's `cryptography`
/// computes it.
pub fn gcm_vectors()
    ensures tag_of_no_text { gcm_tag (cipher (replicate 16 0)) (replicate 12 0) [] [] ≡ block 0x58e2fccefa7e3061367f1d57a4e7455a }
    ensures text { gcm_text (cipher (replicate 16 0)) (replicate 12 0) (replicate 16 0) ≡ block 0x0388dace60b6a392f328c2b971b2fe78 }
    ensures tag_of_data { gcm_tag (cipher (replicate 16 0)) (replicate 12 0) (range_with_len 0 20) [] ≡ block 0x6cb71d8230f1c75a6bbc9f23ad201c0b }
    ensures tag { gcm_tag (cipher (replicate 16 0)) (replicate 12 0) [] (block 0x0388dace60b6a392f328c2b971b2fe78)
        ≡ block 0xab6e47d42cec13bdf53a67b21257bddf }
{}
