// Longitudes of the mapping grid: there is no code here. `specs/Meridians.antt` says which numbers of degrees are the same meridian,
// which are longitudes, and what the sources list as the columns of each format; `specs/Before.antt` what a point was before the
// first longitude went by the format. `proofs/` has what holds, over the definitions of `grid_points` and `entries`:
//
//   Turns     of each meridian one number of degrees is a longitude, and `west_above180` gives it
//   Columns   THE 25 COLUMNS OF EACH FORMAT; no two points of a grid have the same latitude and longitude
//   Points    the same of every answer of `mapping`
//   AsBefore  bytes, latitudes and refusals are as before, and in every format but 2 the whole answer
#![tactic(auto)]
