#![tactic(auto)]

// Strings of bits and of bytes, without code: what they are, and what holds of them. `slices` has the functions that read
// bits, `slice_writer` those that put them, `octets` those on whole bytes.
//
// `specs/Bits.antt` defines: `bits_of` is a byte string as bits, most significant first, `digits` the bits of a number,
// `number_of` the number that bits write, `packed_of` and `fields_of` numbers of a width; `stretch` some elements of a string,
// `same` and `apart` compare two. `specs/Parallel.antt` is the parallel count of a number's set bits. `proofs/` has the laws,
// each over every width:
//
//   Below, Through, Xor, Push    bounds; a value carried through a string; exclusive or; a bit pushed in
//   Digits, Packed, Fields       the law over the width: what is packed is unpacked again
//   Bytes, Window, Store         a bit or a field of bytes by shifts and masks, read and put
//   Mixed, Distance, Same        two strings: their exclusive or, how far they are apart, whether they are the same
//   Counts, Parallel             how many bits are set: in stretches, in a number, in bytes of either order; the parallel count
//   Writes, Packing, Zeros       loops that write, zeros
//   Base, Whole                  a number in a base that grows by a digit; the number that bits write, in digits of any width
//   Stretches                    some elements of a string, and a string cut into pieces
