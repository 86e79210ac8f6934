// The text of `help`.

/// One screen: what there is, and an example of each.
pub const HELP: &[u8] =
    b"bl: loads of property graph CSV into a store, and the stream of their changes

  bl ROOT STORE COMMAND
s3://BUCKET/KEY is read at ROOT/BUCKET/KEY; STORE is a folder for the program.

  load SOURCE          load a file or a folder of files, and print its line
    --mode M             NEW, RESUME or AUTO (AUTO)
    --keep-going         go on behind records that are refused
    --update-single      a new single value takes the place of the old one
    --changes            print the changes
  status               the ids of the loads, as JSON
  status ID            one load, its failed files and its first errors, as JSON
  stream               a page of the change stream, as JSON
    --type T             TRIM_HORIZON, LATEST, AT_ or AFTER_SEQUENCE_NUMBER
    --commit N, --op N   the place of the last two
    --limit N            1 to 100000 records (10)
  script               answer the requests of the input, as the service does
    --turns K            up to K turns of the loader behind each, 0 to 1000 (1)
  help                 this text

  bl examples /tmp/store load s3://b/people --changes
  bl examples /tmp/store status 00000000-0000-4000-8000-000000000001
  bl examples /tmp/store stream --type TRIM_HORIZON --limit 100
  bl examples /tmp/store script --turns 9 < examples/requests.http
";
