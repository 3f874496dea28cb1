//! The texts of help, of the version and of how the program is called.
ghost use Rattle.std.specs.Prelude.{◌≡◌};
ghost use Rattle.asp_cli.specs.Texts.{page_back, page_front, usage_lines, version_line};

/// The lines that tell how the program is called.
pub const USAGE: &str =
    "usage: aspenum [--mode auto|enum|opt|brave|cautious] [--format aspif|smodels]\n\
\x20              [--models N] [--opt-all] [--workers 1..64] [--log blocks|row]\n\
\x20              [--budget N] [--output text|json] [--quiet] [--names] [--proof]\n\
\x20              [--split 1..100000] [--make 3..2000] [--queries] [--core-min]\n\
\x20              [--stats] [--progress] [--stream]";

/// The program's name and version.
pub const VERSION: &str = "aspenum 0.1.0\n";

const PAGE_FRONT: &str =
    "aspenum: all stable models of a ground logic program, or one of least cost\n\n";

const PAGE_BACK: &str = "\n\
\x20      aspenum --help | --version\n\
\n\
The program is read from standard input, in the format aspif 1.0 that gringo\n\
writes, or as a smodels text.\n\
\n\
Options, each at most once, its value as the next argument or, with a long\n\
name, after '=':\n\
\x20 -e, --mode MODE   enum: all answers. opt: one of least cost. auto, the\n\
\x20                   default: opt where the program has a minimize statement,\n\
\x20                   and else enum. brave: the atoms in some answer. cautious:\n\
\x20                   those in every one\n\
\x20 --format FORMAT   aspif, the default, or smodels, which gringo writes with\n\
\x20                   --output=smodels\n\
\x20 -n, --models N    end with N answers; 0, the default, is no limit. An\n\
\x20                   optimisation takes notice of it only with --opt-all, brave\n\
\x20                   and cautious never\n\
\x20 --opt-all         an optimisation writes all answers of least cost\n\
\x20 -t, --workers N   threads that search, 1 to 64; the default is 1\n\
\x20 --log LOG         where threads tell one another what they learnt: blocks, the\n\
\x20                   default, or row, 65536 slots without a lock\n\
\x20 --budget N        at most N conflicts, 0 to 9223372036854775807, the default\n\
\x20 --output FORM     text, the default, or json, with the keys that clasp has;\n\
\x20                   not beside --proof, --split or --make\n\
\x20 -q, --quiet       write no answers: only how many there are, the least cost,\n\
\x20                   and the atoms of brave and cautious\n\
\x20 --names           brave and cautious: write the texts of the outputs that some\n\
\x20                   answer shows, or every one; with --output json always\n\
\x20 --proof           write a proof for aspcheck in place of the results: of a\n\
\x20                   finished run, that nothing else is to be found; of one that\n\
\x20                   ended with N answers, or a spent budget, what it found; not\n\
\x20                   beside --quiet, brave or cautious\n\
\x20 --split N         divide the program and solve nothing: write at most N\n\
\x20                   lines, 1 to 100000, each the assumptions of one part; of\n\
\x20                   the other options only --format and --make can be beside it\n\
\x20 --make N          solve a ring of N nodes, 3 to 2000, and read no program\n\
\x20 --queries         answer the queries after the program's end, one by one: lines\n\
\x20                   '6 n l1 .. ln', up to a second line '0'; not beside --proof,\n\
\x20                   --opt-all, --models, --stream, --make, --split,\n\
\x20                   smodels texts, brave or cautious\n\
\x20 --core-min        leave out literals of a query's core as long as the others\n\
\x20                   suffice\n\
\x20 --stats           write counts of the run, or of each query and of all\n\
\x20                   together, to standard error\n\
\x20 --progress        write a line to standard error when the conflicts or the\n\
\x20                   answers have doubled, and for each cheaper answer\n\
\x20 --stream          of all answers, or all optima, write each as soon as none\n\
\x20                   that stands before it can come: the same lines, by one\n\
\x20                   thread; with --models N the first N; without effect beside\n\
\x20                   --proof, --quiet or --output json\n\
\x20 -h, --help        write this page\n\
\x20 --version         write the version\n\
\n\
As in clasp, --opt-mode=ignore is --mode enum, --opt-mode=opt is --mode opt,\n\
--opt-mode=optN is --opt-all, and --outf=2 is --output json.\n\
\n\
Exit status:\n\
\x20 30  all that was sought was found and written   64  the arguments are wrong\n\
\x20 20  the program has no answer                   65  the input is refused\n\
\x20 11  as many answers as asked for were written   66  reading failed\n\
\x20 10  the budget was spent with an answer found   67  the input is too long\n\
\x20  1  the budget was spent without one            74  writing failed\n\
\x20  0  help, the version or parts were written\n\
\x20 33  memory ran out\n\
\n\
Example:\n\
\x20 gringo colouring.lp | aspenum --mode enum\n\
\n\
The manual is aspenum(1).\n\
";

/// The lines that tell how the program is called, without the end of the last.
pub fn usage() -> &'static [u8]
    ensures { result.now ≡ usage_lines }
{
    USAGE.as_bytes()
}

/// The line of the version.
pub fn version() -> &'static [u8]
    ensures { result.now ≡ version_line }
{
    VERSION.as_bytes()
}

/// What the page of help has before the usage lines.
pub fn page_front() -> &'static [u8]
    ensures { result.now ≡ page_front }
{
    PAGE_FRONT.as_bytes()
}

/// What the page of help has after the usage lines.
pub fn page_back() -> &'static [u8]
    ensures { result.now ≡ page_back }
{
    PAGE_BACK.as_bytes()
}
