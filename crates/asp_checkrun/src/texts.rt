//! The texts of help, of the version and of how the program is called.
ghost use Rattle.std.specs.Prelude.{◌≡◌};
ghost use Rattle.asp_checkrun.specs.Texts.{help_page, usage_line, version_line};

const USAGE: &str = "usage: aspcheck [--format aspif|smodels] < INPUT\n";

const VERSION: &str = "aspcheck 0.1.0\n";

const PAGE: &str = "\
aspcheck: whether a proof shows the results of a ground logic program\n\
\n\
usage: aspcheck [--format aspif|smodels] < INPUT\n\
\x20      aspcheck --help | --version\n\
\n\
INPUT has two parts: a program, each of its lines with a line feed, and then a\n\
proof, whose first line is 'proof 3' and which aspenum --proof writes.\n\
\n\
Options:\n\
\x20 --format FORMAT   the program's format: aspif, the default, or smodels\n\
\x20 -h, --help        write this page\n\
\x20 --version         write the version\n\
\n\
It writes YES; or PART and the number of answers, if the proof tells that there\n\
may be others; or NO, the number of the reason and that of the proof's line.\n\
Standard error says why in words.\n\
\n\
Exit status:\n\
\x20  0  the proof is right, or help or the version was written\n\
\x20  1  the proof isn't right              66  reading failed\n\
\x20  2  it is right, but lists a part      67  the input is too long\n\
\x20 33  memory ran out                     68  there is no proof, or it is refused\n\
\x20 64  the arguments are wrong            74  writing failed\n\
\x20 65  the program is refused\n\
\n\
Example:\n\
\x20 aspenum --proof < program.aspif | cat program.aspif - | aspcheck\n\
\n\
The manual is aspcheck(1).\n\
";

/// The line that tells how the program is called.
pub fn usage() -> &'static [u8]
    ensures { result.now ≡ usage_line }
{
    USAGE.as_bytes()
}

/// The line of the version.
pub fn version() -> &'static [u8]
    ensures { result.now ≡ version_line }
{
    VERSION.as_bytes()
}

/// The page of help.
pub fn page() -> &'static [u8]
    ensures { result.now ≡ help_page }
{
    PAGE.as_bytes()
}
