// The calls of `rack_entries` for C.
ghost use Rattle.std.specs.Prelude.{◌≡◌};
ghost use Rattle.entries.specs.Entries.{mapping_answer, elements_answer};
ghost use Rattle.calibration.specs.Tables.{albedos, temperatures, level_answer, level_f64_answer};
ghost use Rattle.rack_blocks.specs.Assembly.{assembly_of};
ghost use Rattle.rack_entries.specs.Entry.{level_given, level_f64_given, grid_given, orbit_given};

use rack_blocks::AssemblyRecord;
use rack_entries::{GridAnswer, LevelAnswer, LevelFloatAnswer, OrbitAnswer};

#[unsafe(no_mangle)]
pub extern "C" fn hansobrik_mapping(
    format: u8,
    assembly: AssemblyRecord,
    block: &[u8],
    row: u16,
    column: u16,
) -> GridAnswer
    ensures { result ≡ grid_given (mapping_answer format (assembly_of assembly).marks block.now row column) }
{
    rack_entries::hansobrik_mapping(format, assembly, block, row, column)
}

#[unsafe(no_mangle)]
pub extern "C" fn hansobrik_albedo(
    format: u8,
    assembly: AssemblyRecord,
    block: &[u8],
    channel: u8,
    level: u16,
) -> LevelAnswer
    ensures { result ≡ level_given (level_answer albedos format (assembly_of assembly) block.now channel level) }
{
    rack_entries::hansobrik_albedo(format, assembly, block, channel, level)
}

#[unsafe(no_mangle)]
pub extern "C" fn hansobrik_albedo_f64(
    format: u8,
    assembly: AssemblyRecord,
    block: &[u8],
    channel: u8,
    level: u16,
) -> LevelFloatAnswer
    ensures { result ≡ level_f64_given (level_f64_answer albedos format (assembly_of assembly) block.now channel level) }
{
    rack_entries::hansobrik_albedo_f64(format, assembly, block, channel, level)
}

#[unsafe(no_mangle)]
pub extern "C" fn hansobrik_temperature(
    format: u8,
    assembly: AssemblyRecord,
    block: &[u8],
    channel: u8,
    level: u16,
) -> LevelAnswer
    ensures { result ≡ level_given (level_answer temperatures format (assembly_of assembly) block.now channel level) }
{
    rack_entries::hansobrik_temperature(format, assembly, block, channel, level)
}

#[unsafe(no_mangle)]
pub extern "C" fn hansobrik_temperature_f64(
    format: u8,
    assembly: AssemblyRecord,
    block: &[u8],
    channel: u8,
    level: u16,
) -> LevelFloatAnswer
    ensures { result ≡ level_f64_given (level_f64_answer temperatures format (assembly_of assembly) block.now channel level) }
{
    rack_entries::hansobrik_temperature_f64(format, assembly, block, channel, level)
}

#[unsafe(no_mangle)]
pub extern "C" fn hansobrik_elements(
    format: u8,
    assembly: AssemblyRecord,
    block: &[u8],
) -> OrbitAnswer
    ensures { result ≡ orbit_given (elements_answer format (assembly_of assembly).marks block.now) }
{
    rack_entries::hansobrik_elements(format, assembly, block)
}
