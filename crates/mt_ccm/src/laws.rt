// Laws of sealing.

ghost use Rattle.std.specs.Prelude.{◌≡◌, ◌-◌, ◌^◌, ◌<◌, List, ℕ, length, take};
ghost use Rattle.mt_ccm.specs.Aes.{inverse, product};
ghost use Rattle.mt_ccm.specs.Ccm.{Sealed};

use crate::sealing::unseal;

/// Two plaintexts are never sealed to the same bytes under one key, nonce and associated data.
pub fn bytes_have_one_plaintext(key: &[u8; 16], nonce: &[u8; 13], aad: &[u8])
    ensures { (plain other bytes : List ℕ) → Sealed key.now nonce.now aad.now plain bytes
        → Sealed key.now nonce.now aad.now other bytes → plain ≡ other }
{}

/// What is sealed is opened to the same plaintext.
pub fn opens_what_is_sealed(
    key: &[u8; 16],
    nonce: &[u8; 13],
    aad: &[u8],
    plain: &[u8],
    buf: &mut [u8],
) -> Option<usize>
    requires aad { length aad.now < 65280 }
    requires length { length buf.old < 2 ^ 16 }
    requires sealed { Sealed key.now nonce.now aad.now plain.now buf.old }
    ensures length { result ≡ Some (length plain.now) }
    ensures plain { take (length plain.now) buf.new ≡ plain.now }
{
    unseal(key, nonce, aad, buf)
}

/// The inverse in GF(2^8), on which the S-box stands, is one: the product of a byte that is not 0 and
/// its inverse is 1 (FIPS 197, 4.4).
pub fn inverse_is_inverse(byte: u8)
    requires { 0 < byte }
    ensures { product byte (inverse byte) ≡ 1 }
{}
