//! What the program says of itself.

pub(crate) const ABOUT: &str =
    "An immutable file host: it serves sites over HTTP/1.1, and keeps each file under its SHA-1.

A deploy lists the paths of a site with the digests of their contents. The host asks for the contents
that it lacks, and publishes the deploy whole or not at all. Each change has a number, by which it can
be undone while no later change reads or writes what it changed.";

pub(crate) const EXAMPLE: &str = "Example, at the top of the repository:
  ./filehost solo < examples/first-run.http
It opens a deploy of one file, uploads the file, reads a part of it, undoes the deploy and reads again,
and prints the five replies.

Documents, in the repository:
  README.md        how to build it, a first run, and what is proved
  docs/HTTP.md     each request and its reply
  docs/CHANGES.md  deploys, aliases, and what an undo does";

pub(crate) const ABOUT_SOLO: &str =
    "Serves one connection: HTTP/1.1 requests on standard input, replies on standard output";

pub(crate) const ABOUT_STORE: &str =
    "An existing folder in which the host is kept, and which nothing else uses";

pub(crate) const MORE_ON_SOLO: &str =
    "To type a request at a terminal, end each line with the return key and the head with an empty line,
as in `GET /s/one/ HTTP/1.1` and an empty line. Ctrl-D ends the input.

Without --store the host starts empty, and all it holds is gone when the connection ends.

With it the host continues where it last stopped, or starts empty where DIR holds no host yet. Let
nothing else write into DIR: files there with the program's own names are read and written over.

Exit status: 0 if the input has ended or a reply has closed the connection, 1 for arguments that
are not taken, 2 if input, output or memory failed, 3 if the journal in DIR can't be opened, 4 if a
file in DIR is missing or damaged, or can't be read.

`journal: Device` means that DIR is not an existing folder, that another program has its journal
open, or that the journal can't be made, read or written.";

pub(crate) const ABOUT_SERVE: &str =
    "Serves any number of clients over TCP, from one or more nodes";

pub(crate) const ABOUT_LISTEN: &str =
    "Where the first node serves clients, as in 127.0.0.1:8080; the port is from 1 to 65520";

pub(crate) const ABOUT_NODES: &str = "How many nodes there are, from 1 to 8";

pub(crate) const ABOUT_WORKERS: &str = "How many threads serve the clients of a node, from 1 to 8";

pub(crate) const ABOUT_SERVED_STORE: &str =
    "An existing folder in which the host is kept, and which nothing else uses [default: in memory]";

pub(crate) const ABOUT_CONNS: &str =
    "After how many client connections each node ends, from 1 to 1000000 [default: never]";

pub(crate) const MORE_ON_SERVE: &str =
    "Node I, counted from 0, serves clients on PORT + I, and other nodes on PORT + 8 + I. All nodes have
one host, and each a cache of 64 MiB. Each prints `node I listening on IP:PORT` once it takes clients.
Whoever reaches a client's port may deploy. Let nothing but the nodes reach the ports of nodes.

Without --store the host starts empty, and all it holds is gone when the program ends. Its journal
has 64 MiB of memory; once that is full, each change is refused until the program is started again.

A node's workers answer reads of what is in its cache. Four more threads of a node read and write
files, put changes into the journal, ask other nodes and answer them.

A head has 10 seconds from its first byte, an idle connection 15 seconds, each 60 KiB of a body
60 seconds, and each 60 KiB of a reply 6 minutes. A node has 1024 connections, or fewer if the limit
of descriptors is low. If one more comes, one ends: first one that closes, then one that wasn't
answered a second after it came, then an idle one, then the one on which least moved. A reply that
moved 256 KiB of late goes on; if all do, the newcomer ends.

Once ./filehost serve is sent SIGTERM or SIGINT, it takes no more clients, and what has begun has
10 seconds to end; a second signal, of the other kind, ends it at once. What its operator is to know
goes to standard error (docs/WIRE.md).

Exit status: 0 if each node has had the clients that --conns gives it, or once a signal has ended it,
1 for arguments that are not taken, 2 if a port can't be listened on or memory failed, 3 if the
journal in DIR can't be opened, 4 if a file in DIR is missing or damaged, or can't be read.";
